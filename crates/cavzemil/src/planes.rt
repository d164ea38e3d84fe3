// Plates: a window's cells packed into eight planes of bits, and unpacked again.
ghost use Rattle.std.specs.Prelude.{◌≡◌, length};
ghost use Rattle.plates.specs.Refusals.{pack_refusal, packed, unpack_refusal, unpacked};

use arith::number_of;

// Packs the cells of a window into its eight planes and answers 0, or answers what refuses them and
// writes nothing.
#[unsafe(no_mangle)]
pub extern "C" fn cavzemil_pack(columns: u32, rows: u32, cells: &[u8], planes: &mut [u8]) -> u32
    ensures answer { result ≡ pack_refusal columns rows cells.now (length planes.old) }
    ensures memory { planes.new ≡ packed columns rows cells.now planes.old }
{
    number_of(plates::pack(columns, rows, cells, planes))
}

// Unpacks the eight planes of a window into its cells and answers 0, or answers what refuses them and
// writes nothing.
#[unsafe(no_mangle)]
pub extern "C" fn cavzemil_unpack(columns: u32, rows: u32, planes: &[u8], cells: &mut [u8]) -> u32
    ensures answer { result ≡ unpack_refusal columns rows planes.now (length cells.old) }
    ensures memory { cells.new ≡ unpacked columns rows planes.now cells.old }
{
    number_of(plates::unpack(columns, rows, planes, cells))
}
