// The number of a separation, and the ink values that it is for.
ghost use Rattle.std.specs.Prelude.{◌≡◌, true, false, IfSome, IfNone};
ghost use Rattle.separation.specs.Weights.{inks_of};
ghost use Rattle.cavzemil.specs.Separations.{known, separation_of};

use separation::{Inks, Separation};

// The refusal of a number that no separation has.
pub(crate) const UNKNOWN: u32 = 100;

// The separation of a number, where one has it.
#[tactic(auto, using(crate::proofs::SeparationLaws::known_number, crate::proofs::SeparationLaws::number_separation, crate::proofs::SeparationLaws::unknown_number))]
pub(crate) fn separation_of(number: u32) -> Option<Separation>
    ensures known { IfSome result (λ sep. (known number ≡ true) × (sep ≡ separation_of number)) }
    ensures unknown { IfNone result (known number ≡ false) }
{
    Separation::try_from(number).ok()
}

pub(crate) fn inks_of(c: u8, m: u8, y: u8) -> Inks
    ensures { result ≡ inks_of c m y }
{
    Inks { c, m, y }
}
