// A screen as it is seen from another corner (rules 19.1 and 19.2).
ghost use Rattle.std.specs.Prelude.{◌≡◌, ◌≤◌, ◌<◌};
ghost use Rattle.std.specs.Result.{result_unwrap_or};
ghost use Rattle.arith.specs.Refusal.{number_of};
ghost use Rattle.screen.specs.Screens.{Admitted};
ghost use Rattle.screen.specs.Corner.{offset_from, moved_to};

use crate::{Screen, check};
use arith::{Refusal, carry};

// The screen whose phase at each place is that of the screen that is handed in, x columns further to the
// right and y rows further down.
#[tactic(auto, using(arith::proofs::RefusalLaws::number_above, crate::proofs::CornerLaws::moved_old, crate::proofs::CornerLaws::moved_none, crate::proofs::CornerLaws::moved_unrefused, crate::proofs::CornerLaws::moved_screen))]
pub fn moved(s: Screen, x: u64, y: u64) -> Result<Screen, Refusal>
    ensures refused { number_of result ≡ (moved_to s x y).refusal }
    ensures screen { result_unwrap_or result s ≡ (moved_to s x y).screen }
{
    check(s)?;
    let g = offset_from(s, x, y);
    Ok(Screen { g, ..s })
}

// The remainder by n of g - a * x - b * y. Columns and rows are reduced by n first, so that no corner is too
// far; then, instead of taking anything off, what it lacks to n is added.
fn offset_from(s: Screen, x: u64, y: u64) -> u32
    requires { Admitted s }
    ensures { result ≡ offset_from s x y }
{
    let Screen { a, b, n, g, .. } = s;
    let columns = (x % n as u64) as u32;
    let rows = (y % n as u64) as u32;
    let along = (a * columns + b * rows) % n;
    carry(g, n - along, n)
}
