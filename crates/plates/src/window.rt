// Windows at the sheet's corner, and how many bytes their cells and their planes have.
ghost use Rattle.std.specs.Prelude.{◌≡◌, ◌*◌, ◌≤◌, IfOk};
ghost use Rattle.arith.specs.Refusal.{number_of, unless};
ghost use Rattle.arith.specs.Sheet.{on_sheet};
ghost use Rattle.plates.specs.Planes.{row_bytes, planes_length, cells_length};

use arith::Refusal;

// A window at the sheet's corner that lies on the sheet.
#[derive(Clone, Copy)]
pub struct Window {
    pub columns: usize,
    pub rows: usize,
    ghost wide: { columns ≤ 65536 },
    ghost high: { rows ≤ 65536 },
}

impl Window {
    // The window of so many columns and rows, refused where it does not lie on the sheet.
    pub fn new(columns: u32, rows: u32) -> Result<Window, Refusal>
        ensures refused { number_of result ≡ unless (on_sheet 0 0 columns rows) 5 0 }
        ensures made { IfOk result (λ w. (w.columns ≡ columns) × (w.rows ≡ rows)) }
    {
        if !(columns <= 65536 && rows <= 65536) {
            return Err(Refusal::OffSheet);
        }
        Ok(Window {
            columns: columns as usize,
            rows: rows as usize,
        })
    }

    // How many bytes a row of a plane has. Not `div_ceil`, with which packing rows of fewer than 8 columns takes
    // 1.6 times the instructions: the compiler then keeps the loop over a row's only place.
    pub fn row_bytes(self) -> usize
        ensures { result ≡ row_bytes self.columns }
    {
        (self.columns + 7) / 8
    }

    // How many bytes a plane has.
    pub fn plane_length(self) -> usize
        ensures { result ≡ self.rows * row_bytes self.columns }
    {
        self.rows * self.row_bytes()
    }

    // How many bytes the eight planes have.
    pub fn planes_length(self) -> usize
        ensures { result ≡ planes_length self.columns self.rows }
    {
        8 * self.plane_length()
    }

    // How many cells the window has.
    pub fn cells_length(self) -> usize
        ensures { result ≡ cells_length self.columns self.rows }
    {
        self.columns * self.rows
    }
}
