// The numbers that a screen stores: the columns, the rows and the shift of its brick (rule 17.1).
ghost use Rattle.std.specs.Prelude.{◌≡◌};
ghost use Rattle.screen.specs.Screens.{Limits, stored_true};

use crate::Screen;

// Whether a screen stores the size and the shift of its brick. Nothing is searched for: of numbers of rows
// that divide a and n, and of shifts below the columns, only those of the brick fit the equation of the
// shift. What has passed the tests before it is small enough for 32 bits.
pub(crate) fn stored_true(s: Screen) -> bool
    requires { Limits s }
    ensures { result ≡ stored_true s }
{
    if s.rows as u64 * s.columns as u64 != s.n as u64 {
        return false;
    }
    if s.a % s.rows != 0 {
        return false;
    }
    if s.columns <= s.shift {
        return false;
    }
    (s.a * s.shift + s.b * s.rows) % s.n == 0
}
