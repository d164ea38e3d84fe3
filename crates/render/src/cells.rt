// One cell: its colour, which it may share with the cell before it, and its colorant.
ghost use Rattle.std.specs.Prelude.{◌≡◌, ◌+◌, ◌*◌, ◌≤◌, ◌<◌, length};
ghost use Rattle.separation.specs.Weights.{inks_of};
ghost use Rattle.render.specs.Windows.{inks_at};
ghost use Rattle.render.specs.Rows.{Own, paint_of};

use separation::{Inks, Separation};

// The last cell painted: its ink values with the levels of their running sums, and its colorant. The
// unit of levels, 2 * D, is the same for all cells.
#[derive(Clone, Copy)]
pub struct Paint {
    pub inks: Inks,
    pub unit: u64,
    pub levels: [u64; 8],
    pub cell: u8,
}

// Before the first cell: no ink, at the threshold 0, which is above no level.
#[tactic(auto, using(quantiser::proofs::Published::scale_limit))]
pub(crate) fn unpainted(n: u32, sep: Separation) -> Paint
    ensures { result ≡ paint_of n sep (inks_of 0 0 0) 0 }
{
    let inks = Inks { c: 0, m: 0, y: 0 };
    Paint {
        inks,
        unit: 2 * separation::scale(sep),
        levels: quantiser::levels(n, sep, inks),
        cell: 0,
    }
}

// The ink values of pixel i of a row.
pub(crate) fn inks_at(input: &[u8], i: usize) -> Inks
    requires { 3 * i + 2 < length input.now }
    ensures { result ≡ inks_at input.now i }
{
    let at = 3 * i;
    Inks {
        c: input[at],
        m: input[at + 1],
        y: input[at + 2],
    }
}

impl Paint {
    // Paints the next cell, with ink values of its own, at a phase of the given threshold. Levels are not
    // worked out again where the last cell had the same ink values.
    #[tactic(auto, unfolding(crate::specs::Rows::paint_of))]
    pub(crate) fn turn(&mut self, n: u32, sep: Separation, inks: Inks, threshold: u16)
        requires { Own n sep self.old }
        ensures { self.new ≡ paint_of n sep inks threshold }
    {
        let bar = self.unit * u64::from(threshold);
        if self.inks != inks {
            self.inks = inks;
            self.levels = quantiser::levels(n, sep, inks);
        }
        self.cell = quantiser::colorant_of(self.levels, bar);
    }
}
