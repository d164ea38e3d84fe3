// Why a window is refused: its screen, its place on the sheet, the lengths of input and output, and its brick.
ghost use Rattle.std.specs.Prelude.{◌≡◌};
ghost use Rattle.arith.specs.Refusal.{unless, number_of};
ghost use Rattle.arith.specs.Run.{zeros};
ghost use Rattle.screen.specs.Screens.{Admitted};
ghost use Rattle.render.specs.Answers.{window_refusal, due_in};

use crate::Window;
use arith::Refusal;
use screen::Screen;

// Whether a window with so many bytes of input and output is rendered; the lowest refusal where it is not.
#[tactic(auto, using(crate::proofs::RefusalLaws::window_error, crate::proofs::RefusalLaws::window_right, crate::proofs::RefusalLaws::window_down, crate::proofs::RefusalLaws::window_input, crate::proofs::RefusalLaws::window_output, crate::proofs::RefusalLaws::window_whole))]
pub(crate) fn check_window(
    s: Screen,
    w: Window,
    inputs: usize,
    outputs: usize,
) -> Result<(), Refusal>
    ensures { number_of result ≡ window_refusal s w inputs outputs }
{
    screen::check(s)?;
    let columns = u64::from(w.columns);
    let rows = u64::from(w.rows);
    if 65536 < u64::from(w.x) + columns || 65536 < u64::from(w.y) + rows {
        return Err(Refusal::OffSheet);
    }
    let cells = columns * rows;
    if inputs as u64 != 3 * cells {
        return Err(Refusal::InputLength);
    }
    if outputs as u64 != cells {
        return Err(Refusal::OutputLength);
    }
    Ok(())
}

// Whether a buffer holds the brick of an admitted screen: the brick is filled anew and compared.
#[tactic(auto, using(crate::proofs::RefusalLaws::brick_short))]
pub(crate) fn check_brick(s: Screen, brick: &[u16]) -> Result<(), Refusal>
    requires { Admitted s }
    ensures { number_of result ≡ unless (due_in s brick.now) 8 0 }
{
    let n = s.n as usize;
    if brick.len() < n {
        return Err(Refusal::Brick);
    }
    let mut due = places();
    screen::fill_brick(s, &mut due)?;
    if brick[..n] == due[..n] {
        Ok(())
    } else {
        Err(Refusal::Brick)
    }
}

// Room for a number for each phase that a screen can have, all 0: a brick, or a table of thresholds.
pub(crate) fn places() -> [u16; 4096]
    ensures { result ≡ zeros 4096 }
{
    [0; 4096]
}
