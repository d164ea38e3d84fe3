// Where the cells of a window have their phases from.
ghost use Rattle.std.specs.Prelude.{◌≡◌, ℕ, ◌+◌, ◌<◌};

// The phases of a row's cells, one after the other.
pub(crate) trait Phases {
    // the phase of the cell that is so many cells further on
    ghost at: { Self → ℕ → ℕ };

    fn next(&mut self) -> u32
        ensures here { result ≡ at self.old 0 }
        ensures on { (i : ℕ) → at self.new i ≡ at self.old (i + 1) };
}

// The phases of a window's rows.
pub(crate) trait Source {
    type Row: Phases + Copy;

    // the phase of the place (x, y)
    ghost number: { Self → ℕ → ℕ → ℕ };

    // The phases of row y from column x on.
    fn row(&self, x: u32, y: u32) -> Self::Row
        requires across { x < 65536 }
        requires down { y < 65536 }
        ensures { (i : ℕ) → Self.Row.at result i ≡ number self.now (x + i) y };
}
