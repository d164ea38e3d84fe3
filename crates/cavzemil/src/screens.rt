// Screens: the phase of a place, the brick and its buffer.
ghost use Rattle.std.specs.Prelude.{◌≡◌, length};
ghost use Rattle.screen.specs.Phase.{place_of};
ghost use Rattle.screen.specs.Brick.{brick_of, buffer_refusal, filled};
ghost use Rattle.cavzemil.specs.Screens.{screen_of, place_laid, brick_laid};

use arith::number_of;

// A screen: the slope a/b, the cell count n, the number of subscreens k and the offset g; and, stored with
// them, the columns, the rows and the shift of its brick.
#[repr(C)]
#[derive(Clone, Copy)]
pub struct Screen {
    pub a: u32,
    pub b: u32,
    pub n: u32,
    pub k: u32,
    pub g: u32,
    pub columns: u32,
    pub rows: u32,
    pub shift: u32,
}

// The phase of a place, or the number of what refuses it.
#[repr(C)]
#[derive(Clone, Copy)]
pub struct Place {
    pub refusal: u32,
    pub phase: u32,
}

// A brick's columns, rows and shift, or the number of what refuses it.
#[repr(C)]
#[derive(Clone, Copy)]
pub struct Brick {
    pub refusal: u32,
    pub columns: u32,
    pub rows: u32,
    pub shift: u32,
}

// The library's screen of the same eight numbers.
impl From<Screen> for screen::Screen {
    ghost from_gives = { λ s t. t ≡ screen_of s };

    fn from(s: Screen) -> screen::Screen {
        screen::Screen {
            a: s.a,
            b: s.b,
            n: s.n,
            k: s.k,
            g: s.g,
            columns: s.columns,
            rows: s.rows,
            shift: s.shift,
        }
    }
}

// The phase of the place in column x and row y of the sheet.
#[tactic(auto, using(crate::proofs::AnswerLaws::place_number, crate::proofs::AnswerLaws::place_phase))]
#[unsafe(no_mangle)]
pub extern "C" fn cavzemil_phase_at(s: Screen, x: u32, y: u32) -> Place
    ensures { result ≡ place_laid (place_of (screen_of s) x y) }
{
    let phase = screen::phase_at(s.into(), x, y);
    Place {
        refusal: number_of(phase),
        phase: phase.unwrap_or(0),
    }
}

// What stands beside a refusal.
const NONE: screen::Brick = screen::Brick {
    columns: 0,
    rows: 0,
    shift: 0,
};

// The brick of a screen.
#[tactic(auto, using(crate::proofs::AnswerLaws::brick_number, crate::proofs::AnswerLaws::brick_columns, crate::proofs::AnswerLaws::brick_rows, crate::proofs::AnswerLaws::brick_shift))]
#[unsafe(no_mangle)]
pub extern "C" fn cavzemil_brick_of(s: Screen) -> Brick
    ensures { result ≡ brick_laid (brick_of (screen_of s)) }
{
    let answer = screen::brick_of(s.into());
    let brick = answer.unwrap_or(NONE);
    Brick {
        refusal: number_of(answer),
        columns: brick.columns,
        rows: brick.rows,
        shift: brick.shift,
    }
}

// Writes a screen's brick to the first n places of a lent buffer and answers 0, or answers what
// refuses it and writes nothing.
#[unsafe(no_mangle)]
pub extern "C" fn cavzemil_fill_brick(s: Screen, brick: &mut [u16]) -> u32
    ensures answer { result ≡ buffer_refusal (screen_of s) (length brick.old) }
    ensures buffer { brick.new ≡ filled (screen_of s) brick.old }
{
    number_of(screen::fill_brick(s.into(), brick))
}
