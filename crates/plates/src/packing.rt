// Packing: from cells to planes.
ghost use Rattle.std.specs.Prelude.{◌≡◌, true, ◌⊎◌, ◌+◌, ◌*◌, ◌≤◌, ◌<◌, length, get_or};
ghost use Rattle.arith.specs.Refusal.{number_of};
ghost use Rattle.plates.specs.Planes.{row_bytes, planes_length, planes_of, colorants_only};
ghost use Rattle.plates.specs.Places.{Packable, PackedTo, word_of, stored};
ghost use Rattle.plates.specs.Refusals.{pack_refusal, packed};

use crate::window::Window;
use crate::{check_lengths, mask_of};
use arith::Refusal;

// Packs the cells of a window into its eight planes, or answers what refuses them and writes nothing.
pub fn pack(columns: u32, rows: u32, cells: &[u8], planes: &mut [u8]) -> Result<(), Refusal>
    ensures refused { number_of result ≡ pack_refusal columns rows cells.now (length planes.old) }
    ensures memory { planes.new ≡ packed columns rows cells.now planes.old }
{
    let window = Window::new(columns, rows)?;
    check_lengths(
        cells.len(),
        window.cells_length(),
        planes.len(),
        window.planes_length(),
    )?;
    if !colorants_only(cells) {
        return Err(Refusal::Plates);
    }
    Cells {
        window,
        bytes: cells,
    }
    .write_planes(planes);
    Ok(())
}

// Whether no cell is above 7. The highest is looked for, without an early end, so that the compiler
// compares many cells at once.
fn colorants_only(cells: &[u8]) -> bool
    ensures { result ≡ colorants_only cells.now }
{
    cells.iter().fold(0, |highest, &cell| cell.max(highest)) <= 7
}

// The cells of a window, all of them colorants.
#[derive(Clone, Copy)]
struct Cells<'a> {
    window: Window,
    bytes: &'a [u8],
    ghost packable: { Packable window.columns window.rows bytes.now },
}

impl Cells<'_> {
    // Writes the rows of the window one after the other, each in all eight planes.
    fn write_planes(self, planes: &mut [u8])
        requires { length planes.old ≡ planes_length self.window.columns self.window.rows }
        ensures { planes.new ≡ planes_of self.entry.window.columns self.entry.window.rows self.entry.bytes.now }
    {
        // Not a chain over chunks of the planes: a row is a part of each of the eight.
        for y in 0..self.window.rows {
            self.write_row(y, planes);
        }
    }

    // Writes row y in all eight planes, place by place. Places of eight pixels, which all are but perhaps a
    // row's last, are told apart, so that the compiler sees the eight masks.
    fn write_row(self, y: usize, planes: &mut [u8])
        requires row { y < self.window.rows }
        requires before { PackedTo self.window.columns self.window.rows self.bytes.now planes.old (y * row_bytes self.window.columns) }
        ensures { PackedTo self.entry.window.columns self.entry.window.rows self.entry.bytes.now planes.new (y * row_bytes self.entry.window.columns + row_bytes self.entry.window.columns) }
    {
        let full = self.window.columns / 8;
        // A loop over chunks_exact of the row was tried, and is no plainer: it needs the place's number as well,
        // and a clause that says which cells a chunk has.
        for b in 0..full {
            self.write_place(y, b, 8, planes);
        }
        let pixels = self.window.columns % 8;
        if pixels != 0 {
            self.write_place(y, full, pixels, planes);
        }
    }

    // Writes byte b of row y in all eight planes: so many pixels, which are eight or the row's last.
    fn write_place(self, y: usize, b: usize, pixels: usize, planes: &mut [u8])
        requires row { y < self.window.rows }
        requires place { 8 * b < self.window.columns }
        requires within { 8 * b + pixels ≤ self.window.columns }
        requires few { pixels ≤ 8 }
        requires all { (pixels ≡ 8) ⊎ (8 * b + pixels ≡ self.window.columns) }
        requires before { PackedTo self.window.columns self.window.rows self.bytes.now planes.old (y * row_bytes self.window.columns + b) }
        ensures { PackedTo self.entry.window.columns self.entry.window.rows self.entry.bytes.now planes.new (y * row_bytes self.entry.window.columns + b + 1) }
    {
        let first = y * self.window.columns + 8 * b;
        let word = word_of(&self.bytes[first..first + pixels]);
        let place = y * self.window.row_bytes() + b;
        put_word(word, self.window.plane_length(), place, planes);
    }
}

// Neighbouring cells, eight at most, in one number: the mask of each is added to the byte that has its
// colorant's number. Each mask is added once, so that no byte runs over into the next.
fn word_of(cells: &[u8]) -> u64
    requires few { length cells.now ≤ 8 }
    requires colorants { colorants_only cells.now ≡ true }
    ensures { result ≡ word_of (λ t. get_or cells.now t 0) (length cells.now) }
{
    let mut word = 0;
    for (t, &cell) in cells.iter().enumerate() {
        word += u64::from(mask_of(t)) << (8 * cell);
    }
    word
}

// Stores the eight bytes of a word at a place of the planes, byte p in plane p.
fn put_word(word: u64, plane: usize, place: usize, planes: &mut [u8])
    requires there { place < plane }
    requires eight { length planes.old ≡ 8 * plane }
    ensures { planes.new ≡ stored word plane place planes.old 8 }
{
    for (p, &byte) in word.to_le_bytes().iter().enumerate() {
        planes[p * plane + place] = byte;
    }
}
