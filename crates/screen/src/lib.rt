// Juxtaposed line screens: which screens are admitted, how one is made, a number of it replaced and the whole
// seen from another corner, the phase of a place, and the brick of phases that repeats over the sheet (rules
// 1.1 to 3.9, 17.1 to 17.6 and 19.1 to 19.4).
#![tactic(auto)]

mod bricks;
mod making;
mod moving;
mod places;
mod stored;

ghost use Rattle.std.specs.Prelude.{◌≡◌};
ghost use Rattle.arith.specs.Refusal.{number_of};
ghost use Rattle.screen.specs.Screens.{numbers_refusal, refusal_of, slope_admitted, cells_admitted, subscreens_admitted};

use crate::stored::stored_true;
use arith::Refusal;
pub use bricks::{Brick, brick_of, fill_brick};
pub use making::{make, replace_cells, replace_offset, replace_subscreens};
pub use moving::moved;
pub use places::phase_at;

// A screen: the slope a/b, the cell count n, the number of subscreens k and the offset g; and, stored with
// them, the columns, the rows and the shift of its brick.
#[derive(Clone, Copy, Debug, PartialEq, Eq, Hash)]
pub struct Screen {
    pub a: u32,
    pub b: u32,
    pub n: u32,
    pub k: u32,
    pub g: u32,
    pub columns: u32,
    pub rows: u32,
    pub shift: u32,
}

// Whether a screen is admitted: the lowest of the refusals 1 to 4 that applies to it, else 15 where its
// stored numbers are not those of its brick.
#[tactic(auto, using(crate::proofs::Refusals::limits_of, crate::proofs::Refusals::error_numbers, crate::proofs::Refusals::refused_15, crate::proofs::Refusals::stored_admitted))]
pub fn check(s: Screen) -> Result<(), Refusal>
    ensures { number_of result ≡ refusal_of s }
{
    check_numbers(s.a, s.b, s.n, s.k, s.g)?;
    if !stored_true(s) {
        return Err(Refusal::Stored);
    }
    Ok(())
}

// The lowest of the refusals 1 to 4 that applies to five numbers.
#[tactic(auto, using(crate::proofs::Refusals::refused_1, crate::proofs::Refusals::refused_2, crate::proofs::Refusals::refused_3, crate::proofs::Refusals::refused_4, crate::proofs::Refusals::admitted, std::proofs::lemmas::Grind::common_steps), unfolding(crate::specs::Screens::offset_admitted))]
pub(crate) fn check_numbers(a: u32, b: u32, n: u32, k: u32, g: u32) -> Result<(), Refusal>
    ensures { number_of result ≡ numbers_refusal a b n k g }
{
    if !slope_admitted(a, b) {
        return Err(Refusal::Slope);
    }
    if !cells_admitted(n) {
        return Err(Refusal::CellCount);
    }
    if !subscreens_admitted(n, k) {
        return Err(Refusal::Subscreens);
    }
    if n <= g {
        return Err(Refusal::Offset);
    }
    Ok(())
}

#[tactic(auto, using(arith::proofs::GcdLaws::gcd_flipped, std::proofs::lemmas::Grind::common_steps), unfolding(crate::specs::Screens::slope_admitted))]
fn slope_admitted(a: u32, b: u32) -> bool
    ensures { result ≡ slope_admitted a b }
{
    1 <= a && a < b && b <= 64 && arith::coprime(b, a)
}

#[tactic(auto, unfolding(crate::specs::Screens::cells_admitted))]
fn cells_admitted(n: u32) -> bool
    ensures { result ≡ cells_admitted n }
{
    (1..=4096).contains(&n)
}

#[tactic(auto, unfolding(crate::specs::Screens::subscreens_admitted))]
fn subscreens_admitted(n: u32, k: u32) -> bool
    ensures { result ≡ subscreens_admitted n k }
{
    (1..=16).contains(&k) && k <= n
}
