// Cells: that of a lone place, and those of a window by the two renderers.
ghost use Rattle.std.specs.Prelude.{◌≡◌};
ghost use Rattle.separation.specs.Weights.{inks_of};
ghost use Rattle.render.specs.Answers.{told};
ghost use Rattle.cavzemil.specs.Windows.{window_of, rendering_laid, unrendered, cell_answer, render_answer, render_output, brick_answer, brick_output};

use crate::screens::Screen;
use crate::separations::{UNKNOWN, inks_of, separation_of};
use arith::{Refusal, number_of};

// The part of the sheet that a call renders: its corner, and how many columns and rows it has.
#[repr(C)]
#[derive(Clone, Copy)]
pub struct Window {
    pub x: u32,
    pub y: u32,
    pub columns: u32,
    pub rows: u32,
}

// The colorant of a place, or the number of what refuses it.
#[repr(C)]
#[derive(Clone, Copy)]
pub struct Cell {
    pub refusal: u32,
    pub colorant: u32,
}

// How many cells were written in each colorant, or the number of what refuses the call.
#[repr(C)]
#[derive(Clone, Copy)]
pub struct Rendering {
    pub refusal: u32,
    pub tallies: [u64; 8],
}

// The library's window of the same four numbers.
impl From<Window> for render::Window {
    ghost from_gives = { λ w v. v ≡ window_of w };

    fn from(w: Window) -> render::Window {
        render::Window {
            x: w.x,
            y: w.y,
            columns: w.columns,
            rows: w.rows,
        }
    }
}

// The library's answer, laid out for C.
#[tactic(auto, using(crate::proofs::AnswerLaws::told_number, crate::proofs::AnswerLaws::told_tallies), unfolding(arith::specs::Run::zeros))]
fn laid(answer: Result<[u64; 8], Refusal>) -> Rendering
    ensures { result ≡ rendering_laid (told answer) }
{
    Rendering {
        refusal: number_of(answer),
        tallies: answer.unwrap_or([0; 8]),
    }
}

// The answer to a number that no separation has.
fn unrendered() -> Rendering
    ensures { result ≡ unrendered }
{
    Rendering {
        refusal: UNKNOWN,
        tallies: [0; 8],
    }
}

// The colorant of the place in column x and row y of the sheet, for ink values of its own.
#[tactic(auto, using(crate::proofs::AnswerLaws::cell_unknown, crate::proofs::AnswerLaws::cell_number, crate::proofs::AnswerLaws::cell_known))]
#[unsafe(no_mangle)]
pub extern "C" fn cavzemil_cell_at(
    s: Screen,
    separation: u32,
    x: u32,
    y: u32,
    c: u8,
    m: u8,
    yellow: u8,
) -> Cell
    ensures { result ≡ cell_answer s separation x y (inks_of c m yellow) }
{
    let Some(sep) = separation_of(separation) else {
        return Cell {
            refusal: UNKNOWN,
            colorant: 0,
        };
    };
    let colorant = render::cell_at(s.into(), sep, x, y, inks_of(c, m, yellow));
    Cell {
        refusal: number_of(colorant),
        colorant: u32::from(colorant.unwrap_or(0)),
    }
}

// Renders a window, its phases worked out.
#[tactic(auto, using(crate::proofs::AnswerLaws::render_unknown, crate::proofs::AnswerLaws::output_unknown, crate::proofs::AnswerLaws::render_known, crate::proofs::AnswerLaws::output_known))]
#[unsafe(no_mangle)]
pub extern "C" fn cavzemil_render(
    s: Screen,
    separation: u32,
    w: Window,
    input: &[u8],
    out: &mut [u8],
) -> Rendering
    ensures answer { result ≡ render_answer s separation w input.now out.old }
    ensures output { out.new ≡ render_output s separation w input.now out.old }
{
    let Some(sep) = separation_of(separation) else {
        return unrendered();
    };
    laid(render::render(s.into(), sep, w.into(), input, out))
}

// Renders a window, its phases read from a lent brick.
#[tactic(auto, using(crate::proofs::AnswerLaws::brick_unknown, crate::proofs::AnswerLaws::brick_output_unknown, crate::proofs::AnswerLaws::brick_known, crate::proofs::AnswerLaws::brick_output_known))]
#[unsafe(no_mangle)]
pub extern "C" fn cavzemil_render_brick(
    s: Screen,
    separation: u32,
    w: Window,
    input: &[u8],
    brick: &[u16],
    out: &mut [u8],
) -> Rendering
    ensures answer { result ≡ brick_answer s separation w input.now brick.now out.old }
    ensures output { out.new ≡ brick_output s separation w input.now brick.now out.old }
{
    let Some(sep) = separation_of(separation) else {
        return unrendered();
    };
    laid(render::render_brick(s.into(), sep, w.into(), input, brick, out))
}
