// Phases that are read from a brick.
ghost use Rattle.std.specs.Prelude.{◌≡◌, ◌+◌, ◌%◌, ◌≤◌, ◌<◌, length, get_or};
ghost use Rattle.render.specs.Rows.{BrickLent, number_read};

use crate::phases::{Phases, Source};
use screen::Brick;

// A brick of n places in columns and rows, with any numbers below n in them.
#[derive(Clone, Copy)]
pub(crate) struct Lent<'a> {
    pub(crate) n: u32,
    pub(crate) size: Brick,
    pub(crate) brick: &'a [u16],
    ghost lent: { BrickLent n size brick.now },
    ghost few: { n ≤ 4096 },
}

impl<'a> Source for Lent<'a> {
    type Row = Around<'a>;

    ghost number = { λ s. number_read s.size s.brick.now };

    // The line of row y, from the column on that x has in it.
    fn row(&self, x: u32, y: u32) -> Around<'a> {
        let Brick {
            columns,
            rows,
            shift,
        } = self.size;
        let behind = shift * (y / rows) % columns;
        let first = (x % columns + columns - behind) % columns;
        let from = (y % rows * columns) as usize;
        let to = from + columns as usize;
        Around {
            line: &self.brick[from..to],
            column: first,
        }
    }
}

// The numbers of a brick's line from a column on, over and over.
#[derive(Clone, Copy)]
pub(crate) struct Around<'a> {
    pub(crate) line: &'a [u16],
    pub(crate) column: u32,
    ghost within: { column < length line.now },
    ghost short: { length line.now ≤ 4096 },
}

impl Phases for Around<'_> {
    ghost at = { λ s i. get_or s.line.now ((s.column + i) % length s.line.now) 0 };

    #[tactic(auto, using(crate::proofs::RowLoop::round_first, crate::proofs::RowLoop::round_on))]
    fn next(&mut self) -> u32 {
        let phase = self.line[self.column as usize];
        self.column = arith::carry(self.column, 1, self.line.len() as u32);
        u32::from(phase)
    }
}
