// Prints what the calls of `render` answer, both renderers called alike: patches on whole bricks, pixels
// of their own ink values, each refusal beside what is admitted, empty windows, the sheet's last places,
// lone places, mixed cases, and stored numbers that are wrong. The file stdout holds what this must print.
#![tactic(auto)]

ghost use Rattle.std.specs.Prelude.{◌<◌};

use arith::{Refusal, number_of};
use printing::Output;
use render::Window;
use screen::Screen;
use separation::{Inks, Separation};
use std::fmt;

// The ink values of the first pixel; each later pixel has those before it times `by`, modulo 256.
#[derive(Clone, Copy)]
struct Values {
    inks: Inks,
    by: u8,
}

// How many bytes of input and output and how many places of the brick are lent, and which place of the
// brick is made wrong.
#[derive(Clone, Copy)]
struct Lent {
    input: usize,
    out: usize,
    brick: usize,
    wrong: Option<usize>,
}

// What both renderers are asked.
#[derive(Clone, Copy)]
struct Case {
    s: Screen,
    sep: Separation,
    w: Window,
    values: Values,
    lent: Lent,
}

fn main() {
    let _ = show_all(&mut Output);
}

fn show_all(page: &mut impl fmt::Write) -> fmt::Result {
    writeln!(
        page,
        "# a b n k g, separation, x y columns rows, c m y by, lent input output brick, wrong place:"
    )?;
    writeln!(
        page,
        "# phases worked out, then read: refusal; tallies; output, every byte 9 before"
    )?;
    patches(page)?;
    own_values(page)?;
    one_value(page)?;
    screens_refused(page)?;
    edges(page)?;
    lengths(page)?;
    bricks(page)?;
    lowest_first(page)?;
    empty(page)?;
    last_places(page)?;
    mixed(page)?;
    stored_windows(page)?;
    writeln!(
        page,
        "# a b n k g, x y, c m y: refusal and colorant by Demichel, by Kueppers"
    )?;
    lone_places(page)?;
    stored_places(page)
}

// The screens of rules 12.1 to 12.6 and small ones, in one colour on whole bricks; and no ink.
fn patches(page: &mut impl fmt::Write) -> fmt::Result {
    let blue = values_of(128, 128, 0, 1);
    let olive = values_of(51, 102, 204, 1);
    let none = values_of(0, 0, 0, 1);
    show_both(
        page,
        screen_of(4, 7, 105, 2, 0),
        window_of(0, 0, 105, 1),
        blue,
    )?;
    show_both(
        page,
        screen_of(4, 7, 70, 2, 0),
        window_of(0, 0, 35, 2),
        olive,
    )?;
    show_both(
        page,
        screen_of(4, 7, 70, 3, 69),
        window_of(17, 23, 35, 2),
        olive,
    )?;
    show_both(
        page,
        screen_of(4, 7, 20, 3, 6),
        window_of(3, 2, 10, 8),
        olive,
    )?;
    show_both(page, screen_of(1, 2, 1, 1, 0), window_of(5, 6, 3, 2), blue)?;
    show_both(page, usual(), window_of(5, 6, 3, 2), none)
}

// Each pixel in its own colour, from corners that are not a brick's.
fn own_values(page: &mut impl fmt::Write) -> fmt::Result {
    let values = values_of(13, 77, 251, 77);
    show_both(
        page,
        screen_of(4, 7, 70, 2, 3),
        window_of(101, 60001, 13, 8),
        values,
    )?;
    show_both(
        page,
        screen_of(4, 7, 105, 16, 104),
        window_of(7, 1, 9, 11),
        values,
    )?;
    show_both(
        page,
        screen_of(60, 61, 48, 5, 17),
        window_of(1, 50, 5, 20),
        values,
    )?;
    show_both(
        page,
        screen_of(4, 7, 3, 2, 1),
        window_of(1, 1, 8, 3),
        values,
    )
}

// One ink value changes from pixel to pixel: 128 times an odd number stays 128.
fn one_value(page: &mut impl fmt::Write) -> fmt::Result {
    let w = window_of(3, 4, 7, 3);
    for (c, m, y) in [(13, 128, 128), (128, 13, 128), (128, 128, 13)] {
        let case = Case {
            values: values_of(c, m, y, 77),
            ..case_of(usual(), w)
        };
        show_case(page, case)?;
    }
    Ok(())
}

// Refusals 1 to 4, each after a screen that is admitted. The brick lent is too short for 4096 cells.
fn screens_refused(page: &mut impl fmt::Write) -> fmt::Result {
    for (a, b, n, k, g) in [
        (7, 8, 70, 2, 0),
        (4, 8, 70, 2, 0),
        (4, 7, 1, 1, 0),
        (4, 7, 0, 1, 0),
        (63, 64, 4096, 16, 4095),
        (63, 64, 4097, 16, 4095),
        (4, 7, 5, 5, 0),
        (4, 7, 5, 6, 0),
        (4, 7, 70, 16, 69),
        (4, 7, 70, 17, 69),
        (4, 7, 70, 2, 70),
    ] {
        show_case(
            page,
            case_of(screen_of(a, b, n, k, g), window_of(8, 9, 3, 2)),
        )?;
    }
    Ok(())
}

// Refusal 5: columns and rows at the sheet's edge.
fn edges(page: &mut impl fmt::Write) -> fmt::Result {
    for (x, y) in [
        (65530, 9),
        (65531, 9),
        (9, 65534),
        (9, 65535),
        (4294967295, 9),
        (9, 4294967295),
    ] {
        show_window(page, window_of(x, y, 6, 2))?;
    }
    Ok(())
}

// Refusals 6 and 7: 3 by 2 pixels with a byte too few or too many, and more cells than 32 bits can count.
fn lengths(page: &mut impl fmt::Write) -> fmt::Result {
    let w = window_of(8, 9, 3, 2);
    for (input, out) in [(18, 6), (17, 6), (19, 6), (18, 5), (18, 7), (18, 0)] {
        show_lent(page, usual(), w, lent_of(input, out, 106, None))?;
    }
    show_lent(
        page,
        usual(),
        window_of(0, 0, 65536, 65536),
        lent_of(0, 0, 106, None),
    )
}

// Refusal 8: bricks of n - 1, n and n + 1 places, and one number wrong, within n and behind.
fn bricks(page: &mut impl fmt::Write) -> fmt::Result {
    for (columns, rows, brick, wrong) in [
        (3, 2, 70, None),
        (3, 2, 71, None),
        (3, 2, 69, None),
        (3, 2, 0, None),
        (3, 2, 70, Some(0)),
        (3, 2, 70, Some(35)),
        (3, 2, 70, Some(69)),
        (3, 2, 71, Some(70)),
        (0, 2, 70, Some(69)),
        (3, 0, 69, None),
    ] {
        let w = window_of(8, 9, columns, rows);
        let lent = Lent {
            brick,
            wrong,
            ..lent_for(w)
        };
        show_lent(page, usual(), w, lent)?;
    }
    Ok(())
}

// Of several refusals the lowest number is answered.
fn lowest_first(page: &mut impl fmt::Write) -> fmt::Result {
    let s = usual();
    let off = window_of(65536, 9, 3, 2);
    let on = window_of(8, 9, 3, 2);
    show_lent(
        page,
        screen_of(4, 7, 70, 2, 70),
        off,
        lent_of(17, 5, 69, None),
    )?;
    show_lent(page, s, off, lent_of(17, 6, 70, None))?;
    show_lent(page, s, on, lent_of(17, 5, 70, None))?;
    show_lent(page, s, on, lent_of(18, 5, 69, None))?;
    show_lent(page, s, on, lent_of(17, 6, 70, Some(0)))
}

// No columns, no rows, neither; beside the sheet and beyond it.
fn empty(page: &mut impl fmt::Write) -> fmt::Result {
    for (x, y, columns, rows) in [
        (8, 9, 0, 2),
        (8, 9, 3, 0),
        (8, 9, 0, 0),
        (65536, 9, 0, 2),
        (65537, 9, 0, 2),
        (8, 65536, 3, 0),
        (8, 65537, 3, 0),
        (65536, 65536, 0, 0),
        (0, 0, 65536, 0),
        (0, 0, 0, 65537),
    ] {
        show_window(page, window_of(x, y, columns, rows))?;
    }
    Ok(())
}

// The last column, the last row and the last place of the sheet.
fn last_places(page: &mut impl fmt::Write) -> fmt::Result {
    show_window(page, window_of(65535, 0, 1, 4))?;
    show_window(page, window_of(0, 65535, 4, 1))?;
    show_window(page, window_of(65535, 65535, 1, 1))?;
    show_window(page, window_of(65500, 65535, 36, 1))
}

fn lone_places(page: &mut impl fmt::Write) -> fmt::Result {
    let s = screen_of(4, 7, 105, 2, 0);
    let inks = inks_of(128, 128, 0);
    for (x, y) in [
        (0, 0),
        (0, 1),
        (3, 2),
        (36, 0),
        (49, 0),
        (65535, 65535),
        (65536, 0),
        (0, 65536),
        (4294967295, 4294967295),
    ] {
        show_cell(page, s, x, y, inks)?;
    }
    let small = screen_of(1, 2, 1, 1, 0);
    show_cell(page, small, 9, 9, inks_of(128, 0, 0))?;
    show_cell(page, small, 9, 9, inks_of(127, 0, 0))?;
    let large = screen_of(63, 64, 4096, 16, 4095);
    show_cell(page, large, 65535, 65535, inks_of(13, 77, 250))?;
    show_cell(page, screen_of(4, 8, 105, 2, 0), 65536, 0, inks)?;
    show_cell(page, screen_of(4, 7, 0, 1, 0), 3, 2, inks)?;
    show_cell(page, screen_of(4, 7, 5, 6, 0), 3, 2, inks)?;
    show_cell(page, screen_of(4, 7, 70, 2, 70), 3, 2, inks)
}

// Refusal 15 of each stored number, before 5, 6, 7 and 8, which meet in the last windows; and 4 before it.
fn stored_windows(page: &mut impl fmt::Write) -> fmt::Result {
    let s = usual();
    let on = window_of(8, 9, 3, 2);
    let lent = lent_for(on);
    let shifted = Screen { shift: 49, ..s };
    show_storing(page, s, on, lent)?;
    show_storing(page, Screen { columns: 36, ..s }, on, lent)?;
    show_storing(page, Screen { rows: 1, ..s }, on, lent)?;
    show_storing(page, shifted, on, lent)?;
    show_storing(page, Screen { g: 70, ..shifted }, on, lent)?;
    show_storing(page, shifted, on, lent_of(17, 6, 70, None))?;
    show_storing(page, shifted, on, lent_of(18, 5, 70, None))?;
    show_storing(page, shifted, on, lent_of(18, 6, 69, None))?;
    show_storing(
        page,
        shifted,
        window_of(65536, 9, 3, 2),
        lent_of(17, 5, 69, None),
    )
}

fn show_storing(page: &mut impl fmt::Write, s: Screen, w: Window, lent: Lent) -> fmt::Result {
    show_stored(page, s)?;
    show_lent(page, s, w, lent)
}

// Refusal 15 before 5, and 4 before it.
fn stored_places(page: &mut impl fmt::Write) -> fmt::Result {
    let s = screen_of(4, 7, 105, 2, 0);
    let shifted = Screen { shift: 76, ..s };
    show_cell_storing(page, s, 3, 2)?;
    show_cell_storing(page, shifted, 3, 2)?;
    show_cell_storing(page, shifted, 65536, 0)?;
    show_cell_storing(page, Screen { g: 105, ..shifted }, 65536, 0)
}

fn show_cell_storing(page: &mut impl fmt::Write, s: Screen, x: u32, y: u32) -> fmt::Result {
    show_stored(page, s)?;
    show_cell(page, s, x, y, inks_of(128, 128, 0))
}

// Screens, windows and ink values, drawn one from the other.
fn mixed(page: &mut impl fmt::Write) -> fmt::Result {
    let mut drawn = Drawn { last: 1 };
    for _ in 0..5u8 {
        let s = mixed_screen(&mut drawn);
        let w = mixed_window(&mut drawn);
        show_both(page, s, w, mixed_values(drawn.next()))?;
    }
    Ok(())
}

fn mixed_screen(drawn: &mut Drawn) -> Screen {
    let a = drawn.next() % 12 + 1;
    let b = a + drawn.next() % 2 + 1;
    let n = drawn.next() % 100 + 8;
    let k = drawn.next() % 8 + 1;
    let g = drawn.next() % 30;
    screen_of(a, b, n, k, g)
}

fn mixed_window(drawn: &mut Drawn) -> Window {
    let x = drawn.next();
    let y = drawn.next();
    let columns = drawn.next() % 10 + 1;
    let rows = drawn.next() % 10 + 1;
    window_of(x, y, columns, rows)
}

fn mixed_values(n: u32) -> Values {
    values_of(
        (n % 256) as u8,
        (n / 256 % 256) as u8,
        (n / 7 % 256) as u8,
        (n % 64 * 2 + 1) as u8,
    )
}

// The number that was drawn last. Of each only the upper half is handed out, the lower one being too regular.
#[derive(Drop)]
struct Drawn {
    last: u32,
}

impl Drawn {
    fn next(&mut self) -> u32
        ensures { result < 65536 }
    {
        self.last = self.last.wrapping_mul(1664525).wrapping_add(1013904223);
        self.last / 65536
    }
}

// A screen that stores the numbers of its brick or, where 1 to 4 refuse it, zeros.
fn screen_of(a: u32, b: u32, n: u32, k: u32, g: u32) -> Screen {
    screen::make(a, b, n, k, g).unwrap_or(Screen {
        a,
        b,
        n,
        k,
        g,
        columns: 0,
        rows: 0,
        shift: 0,
    })
}

fn window_of(x: u32, y: u32, columns: u32, rows: u32) -> Window {
    Window {
        x,
        y,
        columns,
        rows,
    }
}

fn inks_of(c: u8, m: u8, y: u8) -> Inks {
    Inks { c, m, y }
}

fn values_of(c: u8, m: u8, y: u8, by: u8) -> Values {
    Values {
        inks: inks_of(c, m, y),
        by,
    }
}

fn lent_of(input: usize, out: usize, brick: usize, wrong: Option<usize>) -> Lent {
    Lent {
        input,
        out,
        brick,
        wrong,
    }
}

// As many bytes as the window has pixels, as far as the buffers reach, and the whole true brick.
fn lent_for(w: Window) -> Lent {
    let cells = u64::from(w.columns) * u64::from(w.rows);
    let out = cells.min(105) as usize;
    lent_of(3 * out, out, 106, None)
}

// A window on a screen in changing colours, with what it needs.
fn case_of(s: Screen, w: Window) -> Case {
    Case {
        s,
        sep: Separation::Demichel,
        w,
        values: values_of(51, 103, 205, 5),
        lent: lent_for(w),
    }
}

// The screen of the cases that are not about screens.
fn usual() -> Screen {
    screen_of(4, 7, 70, 2, 5)
}

// Both separations of a window.
fn show_both(page: &mut impl fmt::Write, s: Screen, w: Window, values: Values) -> fmt::Result {
    for sep in [Separation::Demichel, Separation::Kueppers] {
        let case = Case {
            sep,
            values,
            ..case_of(s, w)
        };
        show_case(page, case)?;
    }
    Ok(())
}

// A window on the usual screen.
fn show_window(page: &mut impl fmt::Write, w: Window) -> fmt::Result {
    show_case(page, case_of(usual(), w))
}

// A window with so much lent.
fn show_lent(page: &mut impl fmt::Write, s: Screen, w: Window, lent: Lent) -> fmt::Result {
    let case = Case {
        lent,
        ..case_of(s, w)
    };
    show_case(page, case)
}

fn show_case(page: &mut impl fmt::Write, case: Case) -> fmt::Result {
    show_question(page, case)?;
    let mut input = [0u8; 315];
    fill_input(&mut input, case.values);
    show_worked(page, case, &input)?;
    show_read(page, case, &input)
}

// Writes the ink values of one pixel after the other.
fn fill_input(input: &mut [u8], values: Values) {
    let Inks {
        mut c,
        mut m,
        mut y,
    } = values.inks;
    for byte in input.iter_mut() {
        *byte = c;
        (c, m, y) = (m, y, c.wrapping_mul(values.by));
    }
}

// The renderer that works phases out.
fn show_worked(page: &mut impl fmt::Write, case: Case, input: &[u8]) -> fmt::Result {
    let Case {
        s,
        sep,
        w,
        lent,
        ..
    } = case;
    let mut out = [9u8; 105];
    let inputs = lent.input.min(input.len());
    let outputs = lent.out.min(out.len());
    let answer = render::render(s, sep, w, &input[..inputs], &mut out[..outputs]);
    show_rendering(page, answer, &out)
}

// The renderer that reads phases from the brick.
fn show_read(page: &mut impl fmt::Write, case: Case, input: &[u8]) -> fmt::Result {
    let Case {
        s,
        sep,
        w,
        lent,
        ..
    } = case;
    let mut brick = [65535u16; 106];
    // Where the screen is refused, the brick stays as it is.
    let _ = screen::fill_brick(s, &mut brick);
    spoil(&mut brick, lent.wrong);
    let mut out = [9u8; 105];
    let inputs = lent.input.min(input.len());
    let outputs = lent.out.min(out.len());
    let places = lent.brick.min(brick.len());
    let answer = render::render_brick(
        s,
        sep,
        w,
        &input[..inputs],
        &brick[..places],
        &mut out[..outputs],
    );
    show_rendering(page, answer, &out)
}

// Makes one number of the brick smaller by 1, or 1 where it is 0.
fn spoil(brick: &mut [u16], wrong: Option<usize>) {
    if let Some(place) = wrong {
        if let Some(phase) = brick.get_mut(place) {
            *phase = phase.checked_sub(1).unwrap_or(1);
        }
    }
}

fn show_question(page: &mut impl fmt::Write, case: Case) -> fmt::Result {
    let Case {
        s,
        sep,
        w,
        values,
        lent,
    } = case;
    show_screen(page, s)?;
    let name = match sep {
        Separation::Demichel => "demichel",
        Separation::Kueppers => "kueppers",
    };
    write!(page, ", {name}, {} {} {} {}", w.x, w.y, w.columns, w.rows)?;
    show_inks(page, values.inks)?;
    let wrong = lent.wrong.unwrap_or(106);
    writeln!(
        page,
        " {}, {} {} {} {wrong}:",
        values.by, lent.input, lent.out, lent.brick
    )
}

fn show_rendering(
    page: &mut impl fmt::Write,
    answer: Result<[u64; 8], Refusal>,
    out: &[u8; 105],
) -> fmt::Result {
    write!(page, "{};", number_of(answer))?;
    for tally in answer.unwrap_or([0; 8]) {
        write!(page, " {tally}")?;
    }
    write!(page, "; ")?;
    for byte in out {
        write!(page, "{byte}")?;
    }
    writeln!(page)
}

fn show_cell(page: &mut impl fmt::Write, s: Screen, x: u32, y: u32, inks: Inks) -> fmt::Result {
    show_screen(page, s)?;
    write!(page, ", {x} {y}")?;
    show_inks(page, inks)?;
    write!(page, ": ")?;
    show_colorant(page, render::cell_at(s, Separation::Demichel, x, y, inks))?;
    write!(page, ", ")?;
    show_colorant(page, render::cell_at(s, Separation::Kueppers, x, y, inks))?;
    writeln!(page)
}

fn show_colorant(page: &mut impl fmt::Write, answer: Result<u8, Refusal>) -> fmt::Result {
    write!(page, "{} {}", number_of(answer), answer.unwrap_or(0))
}

// The heading of what is shown of a screen that stores these numbers.
fn show_stored(page: &mut impl fmt::Write, s: Screen) -> fmt::Result {
    writeln!(page, "# stored {} {} {}", s.columns, s.rows, s.shift)
}

fn show_screen(page: &mut impl fmt::Write, s: Screen) -> fmt::Result {
    write!(page, "{} {} {} {} {}", s.a, s.b, s.n, s.k, s.g)
}

fn show_inks(page: &mut impl fmt::Write, inks: Inks) -> fmt::Result {
    write!(page, ", {} {} {}", inks.c, inks.m, inks.y)
}
