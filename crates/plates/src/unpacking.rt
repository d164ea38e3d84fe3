// Unpacking: from planes to cells.
ghost use Rattle.std.specs.Prelude.{ℕ, ◌≡◌, ◌&&◌, ◌+◌, ◌*◌, ◌≤◌, ◌<◌, length, get_or};
ghost use Rattle.arith.specs.Refusal.{number_of};
ghost use Rattle.arith.specs.Run.{upto};
ghost use Rattle.plates.specs.Planes.{row_bytes, planes_length, cells_length, cells_of, pixels_once, padding_clear};
ghost use Rattle.plates.specs.Places.{byte_at, once_at, row_once, full_mask, Unpackable, Roomy, WrittenTo, Apart, colorant_at, row_of, sum_at};
ghost use Rattle.plates.specs.Refusals.{unpack_refusal, unpacked};

use crate::window::Window;
use crate::{check_lengths, mask_of};
use arith::Refusal;

// Unpacks the eight planes of a window into its cells, or answers what refuses them and writes nothing.
pub fn unpack(columns: u32, rows: u32, planes: &[u8], cells: &mut [u8]) -> Result<(), Refusal>
    ensures refused { number_of result ≡ unpack_refusal columns rows planes.now (length cells.old) }
    ensures memory { cells.new ≡ unpacked columns rows planes.now cells.old }
{
    let window = Window::new(columns, rows)?;
    check_lengths(
        planes.len(),
        window.planes_length(),
        cells.len(),
        window.cells_length(),
    )?;
    let eight = Planes::new(window, planes);
    if !eight.sound() {
        return Err(Refusal::Plates);
    }
    Sound { planes: eight }.write_cells(cells);
    Ok(())
}

// The eight planes of a window.
#[derive(Clone, Copy)]
struct Planes<'a> {
    window: Window,
    bytes: &'a [u8],
    // how many bytes each plane has
    plane: usize,
    ghost one: { plane ≡ window.rows * row_bytes window.columns },
    ghost eight: { length bytes.now ≡ 8 * plane },
    ghost small: { (i : ℕ) → get_or bytes.now i 0 < 256 },
}

impl<'a> Planes<'a> {
    fn new(window: Window, bytes: &'a [u8]) -> Planes<'a>
        requires { length bytes.now ≡ planes_length window.columns window.rows }
        ensures same_window { result.window ≡ window }
        ensures same_bytes { result.bytes.now ≡ bytes.now }
    {
        Planes {
            window,
            bytes,
            plane: window.plane_length(),
        }
    }

    // Whether each pixel of the window is in exactly one plane, and no bit past the last column is set.
    fn sound(self) -> bool
        ensures { result ≡ pixels_once self.entry.window.columns self.entry.window.rows self.entry.bytes.now && padding_clear self.entry.window.columns self.entry.window.rows self.entry.bytes.now }
    {
        let bytes = self.window.row_bytes();
        (0..self.window.rows).all(|y| self.row_sound(y * bytes))
    }

    // The same of the row that begins at a place of the planes. All its places are tested for eight pixels
    // without an early end, so that the compiler tests many at once: as many must pass as the columns have
    // eights. A last place of fewer pixels is tested by itself; if it is as it should be, it is not among
    // those that passed.
    fn row_sound(self, start: usize) -> bool
        requires { start + row_bytes self.window.columns ≤ self.plane }
        ensures { result ≡ row_once self.entry.window.columns self.entry.plane self.entry.bytes.now start }
    {
        let columns = self.window.columns;
        let passed: u16 = (0..self.window.row_bytes())
            .map(|b| u16::from(self.once_at(start + b, 8)))
            .sum();
        let full = columns / 8;
        let pixels = columns % 8;
        let whole = pixels == 0;
        let last = whole || self.once_at(start + full, pixels);
        (usize::from(passed) == full) & last
    }

    // Whether each of a place's first pixels is in exactly one plane, and each after them in none: the eight
    // bytes' sum and their union both are these pixels' masks. If the union is, each of them is in a plane
    // and no bit after them is set; if the sum is too, none is in two planes.
    fn once_at(self, place: usize, pixels: usize) -> bool
        requires few { pixels ≤ 8 }
        requires there { place < self.plane }
        ensures { result ≡ once_at self.entry.plane self.entry.bytes.now place pixels }
    {
        let full = full_mask(pixels);
        let (sum, union) = (0..8).fold((0, 0), |(sum, union), p| {
            let byte = u16::from(self.byte_at(place, p));
            (sum + byte, union | byte)
        });
        (sum == full) & (union == full)
    }

    // The byte of plane p at a place.
    fn byte_at(self, place: usize, p: usize) -> u8
        requires there { place < self.plane }
        requires plane { p < 8 }
        ensures { result ≡ byte_at self.entry.plane self.entry.bytes.now place p }
    {
        self.bytes[p * self.plane + place]
    }

    // The bytes of four planes at a place, added up.
    fn sum_of(self, place: usize, p: usize, q: usize, r: usize, s: usize) -> u8
        requires there { place < self.plane }
        requires planes { (p < 8) × (q < 8) × (r < 8) × (s < 8) }
        requires fits { sum_at self.plane self.bytes.now place p q r s < 256 }
        ensures { result ≡ sum_at self.entry.plane self.entry.bytes.now place p q r s }
    {
        self.byte_at(place, p)
            + self.byte_at(place, q)
            + self.byte_at(place, r)
            + self.byte_at(place, s)
    }
}

// Planes that may be unpacked: each pixel is in exactly one of them, and no bit past the last column is set,
// so that no bit is in two.
#[derive(Clone, Copy)]
struct Sound<'a> {
    planes: Planes<'a>,
    ghost unpackable: { Unpackable planes.window.columns planes.window.rows planes.bytes.now },
    ghost apart: { Apart planes.plane planes.bytes.now },
}

impl Sound<'_> {
    // Writes the colorants of all pixels. Where rows have eight columns or more, each but the last is written
    // with eight pixels at its last place too, so that it has places of eight pixels only; the next row, which
    // has room for the surplus, is then written over it. For a single place this does not pay.
    fn write_cells(self, cells: &mut [u8])
        requires { length cells.old ≡ cells_length self.planes.window.columns self.planes.window.rows }
        ensures { cells.new ≡ cells_of self.entry.planes.window.columns self.entry.planes.window.rows self.entry.planes.bytes.now }
    {
        let columns = self.planes.window.columns;
        let rows = self.planes.window.rows;
        let roomy = if columns >= 8 {
            rows.saturating_sub(1)
        } else {
            0
        };
        let whole = 8 * self.planes.window.row_bytes();
        self.write_rows(0, roomy, whole, cells);
        self.write_rows(roomy, rows, columns, cells);
    }

    // Writes the rows from one up to another, those before them being written, and so many pixels of each: its
    // columns, or eight at its last place too.
    fn write_rows(self, from: usize, to: usize, pixels: usize, cells: &mut [u8])
        requires roomy { Roomy self.planes.window.columns self.planes.window.rows to pixels }
        requires before { WrittenTo self.planes.window.columns self.planes.window.rows self.planes.bytes.now cells.old (from * self.planes.window.columns) }
        ensures { WrittenTo self.entry.planes.window.columns self.entry.planes.window.rows self.entry.planes.bytes.now cells.new (to * self.entry.planes.window.columns) }
    {
        let bytes = self.planes.window.row_bytes();
        // Not a chain over chunks of the cells: with the surplus, the parts that are lent overlap.
        for y in from..to {
            let first = y * self.planes.window.columns;
            self.write_row(y * bytes, &mut cells[first..first + pixels]);
        }
    }

    // Writes the colorants of the pixels from a place of the planes on, one for each cell that is lent.
    fn write_row(self, start: usize, out: &mut [u8])
        requires { start + row_bytes (length out.old) ≤ self.planes.plane }
        ensures { out.new ≡ upto (row_of self.entry.planes.plane self.entry.planes.bytes.now start) (length out.old) }
    {
        let count = out.len();
        let full = count / 8;
        // A loop over chunks_exact_mut was tried; its proof did not close, since nothing is known of what the
        // lent cells end as. Over chunks_mut, which are not known to be eight, it is slower too.
        for b in 0..full {
            let first = 8 * b;
            self.write_pixels(start + b, &mut out[first..first + 8]);
        }
        if count % 8 != 0 {
            self.write_pixels(start + full, &mut out[8 * full..]);
        }
    }

    // Writes the colorants of a place's first pixels. Since none is in two planes, the bytes of several planes
    // add up to their union; and a colorant has the bit 1, 2 or 4 where its pixel is in one of the planes
    // whose numbers have that bit.
    fn write_pixels(self, place: usize, out: &mut [u8])
        requires there { place < self.planes.plane }
        requires few { length out.old ≤ 8 }
        ensures { out.new ≡ upto (colorant_at self.entry.planes.plane self.entry.planes.bytes.now place) (length out.old) }
    {
        let ones = self.planes.sum_of(place, 1, 3, 5, 7);
        let twos = self.planes.sum_of(place, 2, 3, 6, 7);
        let fours = self.planes.sum_of(place, 4, 5, 6, 7);
        for (t, pixel) in out.iter_mut().enumerate() {
            let mask = mask_of(t);
            *pixel = ones / mask % 2 + 2 * (twos / mask % 2) + 4 * (fours / mask % 2);
        }
    }
}

// The masks of a place's first pixels, added up.
fn full_mask(pixels: usize) -> u16
    requires { pixels ≤ 8 }
    ensures { result ≡ full_mask pixels }
{
    256 - (256 >> pixels)
}
