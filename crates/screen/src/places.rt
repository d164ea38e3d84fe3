// The phase of a place.
ghost use Rattle.std.specs.Prelude.{◌≡◌, ◌≤◌, ◌<◌, IfOk};
ghost use Rattle.arith.specs.Refusal.{number_of};
ghost use Rattle.screen.specs.Screens.{Admitted};
ghost use Rattle.screen.specs.Phase.{phase, place_refusal};

use crate::{Screen, check};
use arith::{Refusal, carry};

// The phase of the place in column x and row y of the sheet.
#[tactic(auto, using(crate::proofs::Refusals::place_passed))]
pub fn phase_at(s: Screen, x: u32, y: u32) -> Result<u32, Refusal>
    ensures refused { number_of result ≡ place_refusal s x y }
    ensures phase { IfOk result (λ p. p ≡ phase s x y) }
{
    check_place(s, x, y)?;
    Ok(phase_of(s, x, y))
}

// Whether a place has a phase: the refusal of the screen, else 5 where the place is off the sheet.
#[tactic(auto, using(crate::proofs::Refusals::place_refused, crate::proofs::Refusals::column_off, crate::proofs::Refusals::row_off, crate::proofs::Refusals::place_on))]
fn check_place(s: Screen, x: u32, y: u32) -> Result<(), Refusal>
    ensures { number_of result ≡ place_refusal s x y }
{
    check(s)?;
    if 65536 <= x || 65536 <= y {
        return Err(Refusal::OffSheet);
    }
    Ok(())
}

// The remainder by n of a * x + b * y - g. Instead of taking g off, what it lacks to n is added, so that
// nothing falls below 0. One division would do; with two, the compiler makes faster code of `render`, which
// is handed a phase for each row.
fn phase_of(s: Screen, x: u32, y: u32) -> u32
    requires { Admitted s × (x < 65536) × (y < 65536) }
    ensures { result ≡ phase s x y }
{
    let Screen { a, b, n, g, .. } = s;
    let right = a * x % n;
    let down = (b * y + (n - g)) % n;
    carry(right, down, n)
}
