// Phases that are worked out: that of a row's first cell, and each next one from the one before it.
ghost use Rattle.std.specs.Prelude.{◌≡◌, ◌+◌, ◌*◌, ◌%◌, ◌≤◌, ◌<◌};
ghost use Rattle.screen.specs.Screens.{Admitted};
ghost use Rattle.screen.specs.Phase.{phase};

use crate::phases::{Phases, Source};
use screen::Screen;

// The phases of an admitted screen. One step to the right adds a, or by the remainder of it.
#[derive(Clone, Copy)]
pub(crate) struct Worked {
    pub(crate) screen: Screen,
    pub(crate) step: u32,
    ghost admitted: { Admitted screen },
    ghost right: { step ≡ screen.a % screen.n },
}

impl Source for Worked {
    type Row = Carried;

    ghost number = { λ s. phase s.screen };

    fn row(&self, x: u32, y: u32) -> Carried {
        let first = screen::phase_at(self.screen, x, y).unwrap();
        Carried {
            n: self.screen.n,
            step: self.step,
            phase: first,
        }
    }
}

// Phases on n cells of which each next one is `step` further on.
#[derive(Clone, Copy)]
pub(crate) struct Carried {
    pub(crate) n: u32,
    pub(crate) step: u32,
    pub(crate) phase: u32,
    ghost low: { phase < n },
    ghost short: { step ≤ n },
}

impl Phases for Carried {
    ghost at = { λ s i. (s.phase + s.step * i) % s.n };

    #[tactic(auto, using(crate::proofs::RowLoop::carried_first, crate::proofs::RowLoop::carried_on))]
    fn next(&mut self) -> u32 {
        let phase = self.phase;
        self.phase = arith::carry(phase, self.step, self.n);
        phase
    }
}
