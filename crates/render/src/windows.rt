// The renderers, and the cell of a lone place.
ghost use Rattle.std.specs.Prelude.{◌≡◌, ℕ, length, IfOk};
ghost use Rattle.arith.specs.Refusal.{number_of};
ghost use Rattle.screen.specs.Phase.{phase};
ghost use Rattle.screen.specs.Brick.{TrueBrick};
ghost use Rattle.render.specs.Windows.{window_cells, tallies_of};
ghost use Rattle.render.specs.Answers.{window_refusal, told, rendering, rendered, brick_rendering, brick_rendered, lone_cell};
ghost use Rattle.render.specs.Finished.{FinishedWindow};

use crate::Window;
use crate::bricks::Lent;
use crate::phases::Source;
use crate::refusals::{check_brick, check_window, places};
use crate::rows::Painter;
use crate::worked::Worked;
use arith::Refusal;
use screen::Screen;
use separation::{Inks, Separation};

// Renders a window, its phases worked out: how many cells were written in each colorant.
pub fn render(
    s: Screen,
    sep: Separation,
    w: Window,
    input: &[u8],
    out: &mut [u8],
) -> Result<[u64; 8], Refusal>
    ensures refused { number_of result ≡ (rendering s sep w input.now out.old).refusal }
    ensures tallies { IfOk result (λ tallies. tallies ≡ (rendering s sep w input.now out.old).tallies) }
    ensures cells { out.new ≡ rendered s sep w input.now out.old }
    ensures finished { FinishedWindow s sep w input.now (length out.old) (told result) out.new }
{
    check_window(s, w, input.len(), out.len())?;
    let phases = Worked {
        screen: s,
        step: s.a % s.n,
    };
    Ok(paint(s, sep, &phases, w, input, out))
}

// Renders a window, its phases read from a lent brick: how many cells were written in each colorant.
pub fn render_brick(
    s: Screen,
    sep: Separation,
    w: Window,
    input: &[u8],
    brick: &[u16],
    out: &mut [u8],
) -> Result<[u64; 8], Refusal>
    ensures refused { number_of result ≡ (brick_rendering s sep w input.now brick.now out.old).refusal }
    ensures tallies { IfOk result (λ tallies. tallies ≡ (brick_rendering s sep w input.now brick.now out.old).tallies) }
    ensures cells { out.new ≡ brick_rendered s sep w input.now brick.now out.old }
    ensures finished { TrueBrick s brick.now → FinishedWindow s sep w input.now (length out.old) (told result) out.new }
{
    check_window(s, w, input.len(), out.len())?;
    check_brick(s, brick)?;
    let phases = Lent {
        n: s.n,
        size: screen::brick_of(s)?,
        brick,
    };
    Ok(paint(s, sep, &phases, w, input, out))
}

// Paints a window that nothing refuses, whatever its phases come from, and answers the tallies of its cells.
fn paint<S: Source>(
    s: Screen,
    sep: Separation,
    phases: &S,
    w: Window,
    input: &[u8],
    out: &mut [u8],
) -> [u64; 8]
    requires served { window_refusal s w (length input.now) (length out.old) ≡ 0 }
    requires phases { (x y : ℕ) → S.number phases.now x y ≡ phase s x y }
    ensures cells { out.new ≡ window_cells s sep w input.now }
    ensures counts { result ≡ tallies_of out.new }
{
    // No cells, and nothing to ask of columns below.
    if out.is_empty() {
        return [0; 8];
    }
    let mut table = places();
    quantiser::thresholds(s, &mut table).unwrap();
    let painter = Painter {
        n: s.n,
        sep,
        table: &table,
    };
    painter.rows(phases, w, input, out)
}

// The colorant of a lone place, without a table: its phase alone is worked out, and its threshold.
#[tactic(auto, using(quantiser::proofs::Published::scale_limit), unfolding(crate::specs::Answers::lone_cell))]
pub fn cell_at(s: Screen, sep: Separation, x: u32, y: u32, inks: Inks) -> Result<u8, Refusal>
    ensures refused { number_of result ≡ (lone_cell s sep x y inks).refusal }
    ensures colorant { IfOk result (λ colorant. colorant ≡ (lone_cell s sep x y inks).colorant) }
{
    let phase = screen::phase_at(s, x, y)?;
    let threshold = quantiser::threshold(s, phase);
    let bar = 2 * separation::scale(sep) * u64::from(threshold);
    Ok(quantiser::colorant_of(quantiser::levels(s.n, sep, inks), bar))
}
