// The brick of a screen, and its buffer of phases.
ghost use Rattle.std.specs.Prelude.{◌≡◌, ◌++◌, ◌+◌, ◌%◌, ◌≤◌, ◌<◌, length, drop, IfOk};
ghost use Rattle.arith.specs.Refusal.{number_of};
ghost use Rattle.screen.specs.Screens.{Admitted, refusal_of};
ghost use Rattle.screen.specs.Brick.{stored_brick, brick_phases, buffer_refusal, filled};

use crate::{Screen, check};
use arith::{Refusal, carry};

// A brick's columns L, rows H and shift S.
#[derive(Clone, Copy, Debug, PartialEq, Eq, Hash)]
pub struct Brick {
    pub columns: u32,
    pub rows: u32,
    pub shift: u32,
}

// The brick of a screen, as it is stored with it.
pub fn brick_of(s: Screen) -> Result<Brick, Refusal>
    ensures refused { number_of result ≡ refusal_of s }
    ensures brick { IfOk result (λ brick. brick ≡ stored_brick s) }
{
    check(s)?;
    Ok(Brick {
        columns: s.columns,
        rows: s.rows,
        shift: s.shift,
    })
}

// Writes a screen's brick to the first n places of a lent buffer; refused, writes nothing.
#[tactic(auto, using(arith::proofs::RefusalLaws::number_above, crate::proofs::Refusals::buffer_error, crate::proofs::Refusals::buffer_short, crate::proofs::Refusals::buffer_fits, crate::proofs::Refusals::filled_refused, crate::proofs::Refusals::filled_short, crate::proofs::Refusals::filled_served))]
pub fn fill_brick(s: Screen, brick: &mut [u16]) -> Result<(), Refusal>
    ensures refused { number_of result ≡ buffer_refusal s (length brick.old) }
    ensures buffer { brick.new ≡ filled s brick.old }
{
    check(s)?;
    let n = s.n as usize;
    if brick.len() < n {
        return Err(Refusal::Brick);
    }
    fill(s, &mut brick[..n]);
    Ok(())
}

// Writes the n phases of a brick row after row, each carried from the one before. At a row's end the
// phase has come round to that of the row's first column, so that one step down is all that is left.
fn fill(s: Screen, brick: &mut [u16])
    requires { Admitted s × (length brick.old ≡ s.n) }
    ensures { brick.new ≡ brick_phases s }
{
    let Screen { n, columns, .. } = s;
    let right = s.a % n;
    let down = s.b % n;
    let mut phase = carry(0, n - s.g, n);
    let mut column = 0;
    for place in brick.iter_mut() {
        *place = phase as u16;
        phase = carry(phase, right, n);
        column += 1;
        if column == columns {
            phase = carry(phase, down, n);
            column = 0;
        }
    }
}
