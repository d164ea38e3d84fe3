// Making a screen, and replacing a number of one (rules 17.2 to 17.5).
ghost use Rattle.std.specs.Prelude.{◌≡◌, ◌≤◌, ◌<◌};
ghost use Rattle.std.specs.Result.{result_unwrap_or};
ghost use Rattle.arith.specs.Refusal.{number_of};
ghost use Rattle.screen.specs.Sizes.{rows_of, shift_of};
ghost use Rattle.screen.specs.Screens.{screen_of};
ghost use Rattle.screen.specs.Made.{no_screen, made_of, replaced_by, offset_replaced, subscreens_replaced, cells_replaced};

use crate::{Screen, check, check_numbers};
use arith::Refusal;

// The screen of five numbers, with those of its brick.
#[tactic(auto, using(arith::proofs::RefusalLaws::number_above, crate::proofs::Refusals::brick_limits, crate::proofs::MadeLaws::made_number, crate::proofs::MadeLaws::made_none, crate::proofs::MadeLaws::made_served))]
pub fn make(a: u32, b: u32, n: u32, k: u32, g: u32) -> Result<Screen, Refusal>
    ensures refused { number_of result ≡ (made_of a b n k g).refusal }
    ensures screen { result_unwrap_or result no_screen ≡ (made_of a b n k g).screen }
{
    check_numbers(a, b, n, k, g)?;
    Ok(screen_of(a, b, n, k, g))
}

// A screen with another offset.
pub fn replace_offset(s: Screen, g: u32) -> Result<Screen, Refusal>
    ensures refused { number_of result ≡ (offset_replaced s g).refusal }
    ensures screen { result_unwrap_or result s ≡ (offset_replaced s g).screen }
{
    replaced_by(s, s.n, s.k, g)
}

// A screen with another number of subscreens.
pub fn replace_subscreens(s: Screen, k: u32) -> Result<Screen, Refusal>
    ensures refused { number_of result ≡ (subscreens_replaced s k).refusal }
    ensures screen { result_unwrap_or result s ≡ (subscreens_replaced s k).screen }
{
    replaced_by(s, s.n, k, s.g)
}

// A screen with another cell count and the brick that follows from it.
pub fn replace_cells(s: Screen, n: u32) -> Result<Screen, Refusal>
    ensures refused { number_of result ≡ (cells_replaced s n).refusal }
    ensures screen { result_unwrap_or result s ≡ (cells_replaced s n).screen }
{
    replaced_by(s, n, s.k, s.g)
}

// A screen with three numbers in place of its own. The brick is worked out anew only for another cell count.
#[tactic(auto, using(arith::proofs::RefusalLaws::number_above, crate::proofs::Refusals::brick_limits, crate::proofs::MadeLaws::replaced_old, crate::proofs::MadeLaws::replaced_number, crate::proofs::MadeLaws::replaced_old_none, crate::proofs::MadeLaws::replaced_new_none, crate::proofs::MadeLaws::replaced_served, crate::proofs::MadeLaws::replaced_beside))]
fn replaced_by(s: Screen, n: u32, k: u32, g: u32) -> Result<Screen, Refusal>
    ensures refused { number_of result ≡ (replaced_by s n k g).refusal }
    ensures screen { result_unwrap_or result s ≡ (replaced_by s n k g).screen }
{
    check(s)?;
    check_numbers(s.a, s.b, n, k, g)?;
    if s.n != n {
        return Ok(screen_of(s.a, s.b, n, k, g));
    }
    Ok(Screen { k, g, ..s })
}

// The screen of five admitted numbers.
fn screen_of(a: u32, b: u32, n: u32, k: u32, g: u32) -> Screen
    requires { (0 < a) × (a < b) × (b ≤ 64) × (0 < n) × (n ≤ 4096) }
    ensures { result ≡ screen_of a b n k g }
{
    let rows = arith::gcd(a, n);
    Screen {
        a,
        b,
        n,
        k,
        g,
        columns: n / rows,
        rows,
        shift: shift_of(a, b, n, rows),
    }
}

// The shift. As S columns and H rows down lead to the same phase, a * S is what b * H lacks to a multiple of
// n: of all such numbers, which are n apart, the first that a divides. At most a of them are tried.
fn shift_of(a: u32, b: u32, n: u32, rows: u32) -> u32
    requires { (0 < a) × (a < b) × (b ≤ 64) × (0 < n) × (n ≤ 4096) × (rows ≡ rows_of a n) }
    ensures { result ≡ shift_of a b n }
{
    let mut along = (n - b * rows % n) % n;
    while along % a != 0 {
        along += n;
    }
    along / a
}
