// Painting a window row after row, wherever the phases of its cells come from.
ghost use Rattle.std.specs.Prelude.{◌≡◌, ℕ, ◌+◌, ◌/◌, ◌%◌, ◌<◌, length};
ghost use Rattle.render.specs.Windows.{tallies_of};
ghost use Rattle.render.specs.Rows.{Table, Cells, RowLent, RowsLent, tallied_on};

use crate::Window;
use crate::cells::{inks_at, unpainted};
use crate::phases::{Phases, Source};
use separation::Separation;

// What cells are painted by: how many phases there are, the separation, and the thresholds by phase. It
// doesn't know the screen that the table is of, and so no slope and no offset.
#[derive(Clone, Copy)]
pub(crate) struct Painter<'a> {
    pub(crate) n: u32,
    pub(crate) sep: Separation,
    pub(crate) table: &'a [u16],
    ghost listed: { ∥ Table n table.now ∥₁ },
}

impl Painter<'_> {
    // Writes the cells of a window row after row, and answers their tallies.
    pub(crate) fn rows<S: Source>(
        &self,
        source: &S,
        w: Window,
        input: &[u8],
        out: &mut [u8],
    ) -> [u64; 8]
        requires phases_low { (x y : ℕ) → S.number source.now x y < self.now.n }
        requires rows_lent { RowsLent w.x w.y w.columns w.rows (length input.now) (length out.old) }
        ensures cells { Cells self.now.n self.now.sep self.now.table.now input.now (λ i. S.number source.now (w.x + i % w.columns) (w.y + i / w.columns)) (length out.old) out.new }
        ensures counts { result ≡ tallies_of out.new }
    {
        let wide = w.columns as usize;
        let mut tallies = [0u64; 8];
        // A zip of `chunks_exact` and `chunks_exact_mut` was tried; its proof did not close, since nothing is
        // known of the cells once the chunks are written.
        for j in 0..w.rows {
            let from = j as usize * wide;
            let to = from + wide;
            let phases = source.row(w.x, w.y + j);
            self.row(
                phases,
                &input[3 * from..3 * to],
                &mut out[from..to],
                &mut tallies,
            );
        }
        tallies
    }

    // Writes the cells of a row, whose phases are below n, and adds them to the tallies.
    #[tactic(auto, using(crate::proofs::RowLoop::paint_small))]
    fn row<P: Phases + Copy>(
        &self,
        mut phases: P,
        input: &[u8],
        out: &mut [u8],
        tallies: &mut [u64; 8],
    )
        requires phases_low { (i : ℕ) → P.at phases i < self.now.n }
        requires row_lent { RowLent (length input.now) (length out.old) tallies.old }
        ensures cells { Cells self.now.n self.now.sep self.now.table.now input.now (P.at phases) (length out.old) out.new }
        ensures counts { tallies.new ≡ tallied_on tallies.old out.new }
    {
        let mut paint = unpainted(self.n, self.sep);
        // A zip with the input by threes was tried; its proof did not close, since nothing is known of a cell
        // after a `zip` with `iter_mut`.
        for (i, cell) in out.iter_mut().enumerate() {
            let threshold = self.table[phases.next() as usize];
            paint.turn(self.n, self.sep, inks_at(input, i), threshold);
            *cell = paint.cell;
            tallies[paint.cell as usize] += 1;
        }
    }
}
