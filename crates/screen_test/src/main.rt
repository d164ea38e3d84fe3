// Prints what the calls of `screen` answer: the worked examples of the rules, each limit of refusals 1 to
// 5, 8 and 15 from both sides, lists of replacements, and screens seen from other corners. The file stdout
// holds what this must print.
#![tactic(auto)]

use arith::{Refusal, number_of};
use printing::Output;
use screen::{Brick, Screen};
use std::fmt;

// What is shown beside a refusal.
const NO_SCREEN: Screen = Screen {
    a: 0,
    b: 0,
    n: 0,
    k: 0,
    g: 0,
    columns: 0,
    rows: 0,
    shift: 0,
};

const NO_BRICK: Brick = Brick {
    columns: 0,
    rows: 0,
    shift: 0,
};

fn main() {
    let _ = show_all(&mut Output);
}

fn show_all(out: &mut impl fmt::Write) -> fmt::Result {
    writeln!(
        out,
        "# a b n k g: refusal; L H S; refusal and phase of (0, 1), of (3, 2); made: refusal, screen"
    )?;
    marks(out)?;
    slopes(out)?;
    cells_and_subscreens(out)?;
    offsets(out)?;
    lowest_first(out)?;
    writeln!(out, "# a b n k g, x y: refusal and phase")?;
    places(out)?;
    writeln!(
        out,
        "# a b n k g, places: refusal; the buffer, every place 65535 before"
    )?;
    buffers(out)?;
    writeln!(
        out,
        "# a screen as above, then what is replaced, one after the other: refusal, screen"
    )?;
    replacements(out)?;
    writeln!(
        out,
        "# the same of screens that store these numbers, each replacement by itself"
    )?;
    stored(out)?;
    writeln!(
        out,
        "# a screen as above, then corners, each seen from the one before: x y: refusal, screen"
    )?;
    corners(out)
}

fn marks(out: &mut impl fmt::Write) -> fmt::Result {
    show(out, screen_of(4, 7, 105, 2, 0))?;
    show(out, screen_of(4, 7, 70, 2, 0))?;
    show(out, screen_of(1, 2, 1, 1, 0))
}

// Refusal 1: a of 0 and 1, b of 64 and 65, a beside b, and a common divisor.
fn slopes(out: &mut impl fmt::Write) -> fmt::Result {
    show(out, screen_of(0, 7, 105, 2, 0))?;
    show(out, screen_of(1, 7, 105, 2, 0))?;
    show(out, screen_of(4, 8, 105, 2, 0))?;
    show(out, screen_of(7, 7, 105, 2, 0))?;
    show(out, screen_of(6, 7, 105, 2, 0))?;
    show(out, screen_of(7, 4, 105, 2, 0))?;
    show(out, screen_of(1, 1, 105, 2, 0))?;
    show(out, screen_of(63, 64, 105, 2, 0))?;
    show(out, screen_of(63, 65, 105, 2, 0))?;
    show(out, screen_of(4294967294, 4294967295, 105, 2, 0))
}

// Refusals 2 and 3: n of 0, 1, 4096 and 4097; k of 0, 16 and 17, and k beside n.
fn cells_and_subscreens(out: &mut impl fmt::Write) -> fmt::Result {
    show(out, screen_of(4, 7, 0, 1, 0))?;
    show(out, screen_of(4, 7, 1, 1, 0))?;
    show(out, screen_of(63, 64, 4096, 16, 4095))?;
    show(out, screen_of(63, 64, 4097, 16, 4095))?;
    show(out, screen_of(4, 7, 4294967295, 16, 0))?;
    show(out, screen_of(4, 7, 105, 0, 0))?;
    show(out, screen_of(4, 7, 105, 1, 0))?;
    show(out, screen_of(4, 7, 105, 16, 0))?;
    show(out, screen_of(4, 7, 105, 17, 0))?;
    show(out, screen_of(4, 7, 5, 5, 0))?;
    show(out, screen_of(4, 7, 5, 6, 0))?;
    show(out, screen_of(4, 7, 105, 4294967295, 0))
}

// Refusal 4: g beside n; and n smaller than a.
fn offsets(out: &mut impl fmt::Write) -> fmt::Result {
    show(out, screen_of(4, 7, 70, 2, 69))?;
    show(out, screen_of(4, 7, 70, 2, 70))?;
    show(out, screen_of(4, 7, 70, 2, 4294967295))?;
    show(out, screen_of(4, 7, 3, 2, 2))?;
    show(out, screen_of(60, 61, 48, 3, 17))
}

// Of several refusals the lowest number is answered.
fn lowest_first(out: &mut impl fmt::Write) -> fmt::Result {
    show(out, screen_of(0, 0, 0, 0, 0))?;
    show(out, screen_of(4, 7, 0, 0, 0))?;
    show(out, screen_of(4, 7, 5, 6, 5))?;
    show(out, screen_of(4, 8, 105, 17, 105))
}

// Refusal 5: both coordinates at the sheet's edge, and that refusals of the screen come first; then the
// cells that the worked examples of motifs name.
fn places(out: &mut impl fmt::Write) -> fmt::Result {
    let s = screen_of(4, 7, 105, 2, 0);
    show_place(out, s, 0, 0)?;
    show_place(out, s, 65535, 0)?;
    show_place(out, s, 65536, 0)?;
    show_place(out, s, 0, 65535)?;
    show_place(out, s, 0, 65536)?;
    show_place(out, s, 65535, 65535)?;
    show_place(out, s, 4294967295, 4294967295)?;
    show_place(out, screen_of(4, 7, 105, 2, 104), 65535, 65535)?;
    show_place(out, screen_of(4, 7, 70, 2, 70), 65536, 65536)?;
    show_place(out, s, 6, 40)?;
    show_place(out, s, 6, 54)?;
    show_place(out, screen_of(4, 7, 104, 2, 0), 0, 0)?;
    show_place(out, screen_of(4, 7, 104, 2, 0), 5, 12)
}

// Refusal 8: buffers of n - 1, n and n + 1 places, of none, and of n places for a refused screen.
fn buffers(out: &mut impl fmt::Write) -> fmt::Result {
    let s = screen_of(4, 7, 70, 2, 0);
    show_filled(out, s, 69)?;
    show_filled(out, s, 70)?;
    show_filled(out, s, 71)?;
    show_filled(out, s, 0)?;
    show_filled(out, screen_of(4, 7, 70, 2, 70), 70)?;
    show_filled(out, screen_of(4, 7, 70, 2, 70), 0)?;
    show_filled(out, screen_of(4, 7, 70, 2, 69), 70)?;
    show_filled(out, screen_of(60, 61, 48, 3, 17), 48)?;
    show_filled(out, screen_of(1, 2, 1, 1, 0), 1)?;
    show_filled(out, screen_of(4, 7, 3, 1, 2), 4)
}

fn replacements(out: &mut impl fmt::Write) -> fmt::Result {
    listed(out)?;
    limits(out)?;
    many_bricks(out)?;
    refused_screens(out)
}

// Rule 12.18; and that the screen which was handed back is as good as before.
fn listed(out: &mut impl fmt::Write) -> fmt::Result {
    let mut s = screen_of(4, 7, 105, 2, 40);
    show(out, s)?;
    s = with_cells(out, s, 70)?;
    s = with_cells(out, s, 1)?;
    s = with_cells(out, s, 40)?;
    s = with_offset(out, s, 70)?;
    s = with_subscreens(out, s, 17)?;
    show(out, s)
}

// Both sides of each limit, and the same number again.
fn limits(out: &mut impl fmt::Write) -> fmt::Result {
    let mut s = screen_of(63, 64, 105, 2, 0);
    show(out, s)?;
    s = with_cells(out, s, 0)?;
    s = with_cells(out, s, 4097)?;
    s = with_cells(out, s, 4294967295)?;
    s = with_cells(out, s, 4096)?;
    s = with_offset(out, s, 4096)?;
    s = with_offset(out, s, 4294967295)?;
    s = with_offset(out, s, 4095)?;
    s = with_subscreens(out, s, 0)?;
    s = with_subscreens(out, s, 17)?;
    s = with_subscreens(out, s, 4294967295)?;
    s = with_subscreens(out, s, 16)?;
    s = with_cells(out, s, 4095)?;
    s = with_offset(out, s, 15)?;
    s = with_cells(out, s, 15)?;
    s = with_cells(out, s, 16)?;
    s = with_cells(out, s, 16)?;
    s = with_offset(out, s, 0)?;
    s = with_cells(out, s, 15)?;
    s = with_subscreens(out, s, 1)?;
    s = with_cells(out, s, 1)?;
    s = with_offset(out, s, 1)?;
    s = with_subscreens(out, s, 2)?;
    show(out, s)
}

// Cell counts that share much, little and nothing with a.
fn many_bricks(out: &mut impl fmt::Write) -> fmt::Result {
    let mut s = screen_of(60, 61, 48, 3, 17);
    show(out, s)?;
    s = with_cells(out, s, 60)?;
    s = with_cells(out, s, 61)?;
    s = with_subscreens(out, s, 5)?;
    s = with_cells(out, s, 90)?;
    s = with_offset(out, s, 89)?;
    s = with_cells(out, s, 89)?;
    s = with_cells(out, s, 3600)?;
    s = with_offset(out, s, 3599)?;
    s = with_cells(out, s, 4095)?;
    show(out, s)
}

// Screens of zeros, and others that a replacement would put right: all eight numbers come back.
fn refused_screens(out: &mut impl fmt::Write) -> fmt::Result {
    let zeros = screen_of(0, 0, 0, 0, 0);
    show(out, zeros)?;
    with_cells(out, zeros, 70)?;
    let cells = record_of(4, 7, 0, 2, 0, 35, 2, 14);
    show(out, cells)?;
    with_cells(out, cells, 70)?;
    let subscreens = record_of(4, 7, 70, 17, 0, 35, 2, 14);
    show(out, subscreens)?;
    with_subscreens(out, subscreens, 2)?;
    with_cells(out, subscreens, 0)?;
    let offset = record_of(4, 7, 70, 2, 70, 35, 2, 14);
    show(out, offset)?;
    with_offset(out, offset, 0)?;
    with_cells(out, offset, 105)?;
    with_subscreens(out, offset, 17)?;
    Ok(())
}

// Refusal 15: each stored number wrong by itself, among them those of rule 12.19; several wrong; and
// refusals 1 to 4, which come first.
fn stored(out: &mut impl fmt::Write) -> fmt::Result {
    wrong_columns(out)?;
    wrong_rows(out)?;
    wrong_shift(out)?;
    wrong_together(out)?;
    lowest_of_stored(out)?;
    stored_in_calls(out)
}

// 2147483683 times 2 is 70 in 32 bits.
fn wrong_columns(out: &mut impl fmt::Write) -> fmt::Result {
    show_70(out, 35, 2, 14)?;
    show_70(out, 34, 2, 14)?;
    show_70(out, 36, 2, 14)?;
    show_70(out, 70, 2, 14)?;
    show_70(out, 0, 2, 14)?;
    show_70(out, 2147483683, 2, 14)
}

fn wrong_rows(out: &mut impl fmt::Write) -> fmt::Result {
    show_70(out, 35, 1, 14)?;
    show_70(out, 35, 3, 14)?;
    show_70(out, 35, 0, 14)?;
    show_70(out, 35, 4294967295, 14)
}

// 14 is true: the numbers beside it; 21, which is 14 to the left; 49, which fits the equation of the shift too;
// 0; and a number that times 4 is 56 in 32 bits, as 14 times 4 is.
fn wrong_shift(out: &mut impl fmt::Write) -> fmt::Result {
    show_70(out, 35, 2, 13)?;
    show_70(out, 35, 2, 15)?;
    show_70(out, 35, 2, 21)?;
    show_70(out, 35, 2, 49)?;
    show_70(out, 35, 2, 0)?;
    show_70(out, 35, 2, 1073741838)?;
    show_stored(out, record_of(1, 2, 1, 1, 0, 1, 1, 0))?;
    show_stored(out, record_of(1, 2, 1, 1, 0, 1, 1, 1))
}

// Columns and rows exchanged; other rectangles of 70 cells, whose shift is 0 by rule 3.3's equation; the brick
// of another cell count; and none.
fn wrong_together(out: &mut impl fmt::Write) -> fmt::Result {
    show_70(out, 2, 35, 14)?;
    show_70(out, 7, 10, 0)?;
    show_70(out, 1, 70, 0)?;
    show_70(out, 105, 1, 77)?;
    show_70(out, 0, 0, 0)?;
    show_70(out, 4294967295, 4294967295, 4294967295)?;
    let of_70 = record_of(4, 7, 105, 2, 0, 35, 2, 14);
    show_stored(out, of_70)?;
    with_cells(out, of_70, 70)?;
    Ok(())
}

fn lowest_of_stored(out: &mut impl fmt::Write) -> fmt::Result {
    show_stored(out, record_of(4, 8, 70, 2, 0, 35, 2, 21))?;
    show_stored(out, record_of(4, 7, 0, 2, 0, 35, 2, 21))?;
    show_stored(out, record_of(4, 7, 70, 17, 0, 35, 2, 21))?;
    show_stored(out, record_of(4, 7, 70, 2, 70, 35, 2, 21))
}

// 15 before 5 and 8.
fn stored_in_calls(out: &mut impl fmt::Write) -> fmt::Result {
    let s = record_of(4, 7, 70, 2, 0, 35, 2, 21);
    show_stored(out, s)?;
    show_place(out, s, 65535, 65535)?;
    show_place(out, s, 65536, 0)?;
    show_place(out, s, 0, 65536)?;
    show_filled(out, s, 70)?;
    show_filled(out, s, 69)?;
    show_filled(out, s, 0)
}

// Rule 12.22; the farthest corner and those beside 32 bits; screens of few cells and of many; and screens that
// are refused.
fn corners(out: &mut impl fmt::Write) -> fmt::Result {
    let mut s = screen_of(4, 7, 105, 2, 40);
    show(out, s)?;
    s = seen_from(out, s, 100000, 70000)?;
    show(out, s)?;
    s = seen_from(out, s, 0, 0)?;
    s = seen_from(out, s, 1, 0)?;
    s = seen_from(out, s, 0, 1)?;
    s = seen_from(out, s, 4294967295, 4294967296)?;
    s = seen_from(out, s, 18446744073709551615, 0)?;
    s = seen_from(out, s, 0, 18446744073709551615)?;
    s = seen_from(out, s, 18446744073709551615, 18446744073709551615)?;
    show(out, s)?;
    seen_from(out, screen_of(1, 2, 1, 1, 0), 18446744073709551615, 1)?;
    seen_from(out, screen_of(4, 7, 3, 1, 2), 65536, 65537)?;
    seen_from(
        out,
        screen_of(63, 64, 4096, 16, 4095),
        18446744073709551614,
        9223372036854775807,
    )?;
    seen_from(
        out,
        screen_of(63, 64, 4095, 16, 0),
        18446744073709551615,
        18446744073709551615,
    )?;
    unmoved(out)
}

// Refusals 1 to 4 and 15: all eight numbers come back.
fn unmoved(out: &mut impl fmt::Write) -> fmt::Result {
    seen_from(out, record_of(4, 8, 70, 2, 0, 35, 2, 14), 1, 1)?;
    seen_from(out, record_of(4, 7, 0, 2, 0, 35, 2, 14), 1, 1)?;
    seen_from(out, record_of(4, 7, 70, 17, 0, 35, 2, 14), 1, 1)?;
    seen_from(out, record_of(4, 7, 70, 2, 70, 35, 2, 14), 1, 1)?;
    seen_from(out, record_of(4, 7, 70, 2, 0, 35, 2, 21), 1, 1)?;
    Ok(())
}

// A screen that stores the numbers of its brick or, where 1 to 4 refuse it, zeros.
fn screen_of(a: u32, b: u32, n: u32, k: u32, g: u32) -> Screen {
    match screen::make(a, b, n, k, g) {
        Ok(s) => s,
        Err(_) => record_of(a, b, n, k, g, 0, 0, 0),
    }
}

fn record_of(
    a: u32,
    b: u32,
    n: u32,
    k: u32,
    g: u32,
    columns: u32,
    rows: u32,
    shift: u32,
) -> Screen {
    Screen {
        a,
        b,
        n,
        k,
        g,
        columns,
        rows,
        shift,
    }
}

// Replaces the offset, and answers the new screen or, refused, the one that it got.
fn with_offset(out: &mut impl fmt::Write, s: Screen, g: u32) -> Result<Screen, fmt::Error> {
    show_replaced(out, s, "g ", g, screen::replace_offset(s, g))
}

fn with_subscreens(out: &mut impl fmt::Write, s: Screen, k: u32) -> Result<Screen, fmt::Error> {
    show_replaced(out, s, "k ", k, screen::replace_subscreens(s, k))
}

fn with_cells(out: &mut impl fmt::Write, s: Screen, n: u32) -> Result<Screen, fmt::Error> {
    show_replaced(out, s, "n ", n, screen::replace_cells(s, n))
}

fn show_replaced(
    out: &mut impl fmt::Write,
    s: Screen,
    name: &str,
    by: u32,
    answer: Result<Screen, Refusal>,
) -> Result<Screen, fmt::Error> {
    writeln!(out, "{name}{by}: {}", Answer(answer, s))?;
    Ok(answer.unwrap_or(s))
}

// The screen as it is seen from a corner or, refused, the one that was given.
fn seen_from(out: &mut impl fmt::Write, s: Screen, x: u64, y: u64) -> Result<Screen, fmt::Error> {
    let answer = screen::moved(s, x, y);
    writeln!(out, "{x} {y}: {}", Answer(answer, s))?;
    Ok(answer.unwrap_or(s))
}

// A screen by what it stores, and a replacement of each number; that of n would be refused as 2.
fn show_stored(out: &mut impl fmt::Write, s: Screen) -> fmt::Result {
    writeln!(out, "# stored {} {} {}", s.columns, s.rows, s.shift)?;
    show(out, s)?;
    with_offset(out, s, 0)?;
    with_subscreens(out, s, 1)?;
    with_cells(out, s, 0)?;
    Ok(())
}

// The same of the screen of 70 cells.
fn show_70(out: &mut impl fmt::Write, columns: u32, rows: u32, shift: u32) -> fmt::Result {
    show_stored(out, record_of(4, 7, 70, 2, 0, columns, rows, shift))
}

fn show(out: &mut impl fmt::Write, s: Screen) -> fmt::Result {
    let answer = screen::brick_of(s);
    let brick = answer.unwrap_or(NO_BRICK);
    write!(out, "{}: {}; ", Numbers(s), number_of(screen::check(s)))?;
    write!(
        out,
        "{} {} {} {}; ",
        number_of(answer),
        brick.columns,
        brick.rows,
        brick.shift
    )?;
    write!(out, "{}, {}; ", Place(s, 0, 1), Place(s, 3, 2))?;
    let made = screen::make(s.a, s.b, s.n, s.k, s.g);
    writeln!(out, "{}", Answer(made, NO_SCREEN))
}

fn show_place(out: &mut impl fmt::Write, s: Screen, x: u32, y: u32) -> fmt::Result {
    writeln!(out, "{}, {x} {y}: {}", Numbers(s), Place(s, x, y))
}

// Lends the first places of a buffer of 72, and shows the whole buffer, what was not lent included.
fn show_filled(out: &mut impl fmt::Write, s: Screen, places: usize) -> fmt::Result {
    let mut buffer = [65535u16; 72];
    let refusal = number_of(fill_first(s, &mut buffer, places));
    write!(out, "{}, {places}: {refusal};", Numbers(s))?;
    for phase in buffer {
        write!(out, " {phase}")?;
    }
    writeln!(out)
}

// Fills the brick of s in the first places of the buffer, or in all of it where it has no more.
fn fill_first(s: Screen, buffer: &mut [u16], places: usize) -> Result<(), Refusal> {
    match buffer.get_mut(..places) {
        Some(first) => screen::fill_brick(s, first),
        None => screen::fill_brick(s, buffer),
    }
}

// The five numbers of a screen.
#[derive(Clone, Copy)]
struct Numbers(Screen);

impl fmt::Display for Numbers {
    fn fmt<W: fmt::Write>(&self, f: &mut fmt::Formatter<W>) -> fmt::Result {
        let s = self.0;
        write!(f, "{} {} {} {} {}", s.a, s.b, s.n, s.k, s.g)
    }
}

// What a call that hands back a screen answers: its refusal, and the new screen or another.
#[derive(Clone, Copy)]
struct Answer(Result<Screen, Refusal>, Screen);

impl fmt::Display for Answer {
    fn fmt<W: fmt::Write>(&self, f: &mut fmt::Formatter<W>) -> fmt::Result {
        let s = self.0.unwrap_or(self.1);
        write!(
            f,
            "{} {} {} {} {}",
            number_of(self.0),
            Numbers(s),
            s.columns,
            s.rows,
            s.shift
        )
    }
}

// The refusal of a place of a screen, and its phase.
#[derive(Clone, Copy)]
struct Place(Screen, u32, u32);

impl fmt::Display for Place {
    fn fmt<W: fmt::Write>(&self, f: &mut fmt::Formatter<W>) -> fmt::Result {
        let phase = screen::phase_at(self.0, self.1, self.2);
        write!(f, "{} {}", number_of(phase), phase.unwrap_or(0))
    }
}
