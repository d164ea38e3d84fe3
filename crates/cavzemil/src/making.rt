// Screens made, with a number replaced, and seen from another corner.
ghost use Rattle.std.specs.Prelude.{◌≡◌};
ghost use Rattle.std.specs.Result.{result_unwrap_or};
ghost use Rattle.arith.specs.Refusal.{number_of};
ghost use Rattle.screen.specs.Made.{made_of, offset_replaced, subscreens_replaced, cells_replaced};
ghost use Rattle.screen.specs.Corner.{moved_to};
ghost use Rattle.cavzemil.specs.Screens.{screen_of, screen_laid, made_laid};

use crate::screens::Screen;
use arith::{Refusal, number_of};

// A screen, and the number of what refuses the call that hands it back.
#[repr(C)]
#[derive(Clone, Copy)]
pub struct Made {
    pub refusal: u32,
    pub screen: Screen,
}

// The screen of five numbers, with those of its brick; eight zeros where the five are refused.
#[unsafe(no_mangle)]
pub extern "C" fn cavzemil_make_screen(a: u32, b: u32, n: u32, k: u32, g: u32) -> Made
    ensures { result ≡ made_laid (made_of a b n k g) }
{
    laid(screen::make(a, b, n, k, g), NONE)
}

// A screen with another offset, or the screen that was handed in.
#[unsafe(no_mangle)]
pub extern "C" fn cavzemil_replace_offset(s: Screen, g: u32) -> Made
    ensures { result ≡ made_laid (offset_replaced (screen_of s) g) }
{
    let given = screen::Screen::from(s);
    laid(screen::replace_offset(given, g), given)
}

// A screen with another number of subscreens, or the screen that was handed in.
#[unsafe(no_mangle)]
pub extern "C" fn cavzemil_replace_subscreens(s: Screen, k: u32) -> Made
    ensures { result ≡ made_laid (subscreens_replaced (screen_of s) k) }
{
    let given = screen::Screen::from(s);
    laid(screen::replace_subscreens(given, k), given)
}

// A screen with another cell count and the brick that follows from it, or the screen that was handed in.
#[unsafe(no_mangle)]
pub extern "C" fn cavzemil_replace_cells(s: Screen, n: u32) -> Made
    ensures { result ≡ made_laid (cells_replaced (screen_of s) n) }
{
    let given = screen::Screen::from(s);
    laid(screen::replace_cells(given, n), given)
}

// A screen as it is seen from column x and row y, or the screen that was handed in.
#[unsafe(no_mangle)]
pub extern "C" fn cavzemil_moved(s: Screen, x: u64, y: u64) -> Made
    ensures { result ≡ made_laid (moved_to (screen_of s) x y) }
{
    let given = screen::Screen::from(s);
    laid(screen::moved(given, x, y), given)
}

// What `make` hands back beside a refusal.
const NONE: screen::Screen = screen::Screen {
    a: 0,
    b: 0,
    n: 0,
    k: 0,
    g: 0,
    columns: 0,
    rows: 0,
    shift: 0,
};

// The library's answer, laid out for C: the new screen or, beside a refusal, another.
fn laid(answer: Result<screen::Screen, Refusal>, other: screen::Screen) -> Made
    ensures { result ≡ record { refusal = number_of answer; screen = screen_laid (result_unwrap_or answer other) } }
{
    Made {
        refusal: number_of(answer),
        screen: answer.unwrap_or(other).into(),
    }
}

// A screen of the same eight numbers, laid out for C.
impl From<screen::Screen> for Screen {
    ghost from_gives = { λ s t. t ≡ screen_laid s };

    fn from(s: screen::Screen) -> Screen {
        Screen {
            a: s.a,
            b: s.b,
            n: s.n,
            k: s.k,
            g: s.g,
            columns: s.columns,
            rows: s.rows,
            shift: s.shift,
        }
    }
}
