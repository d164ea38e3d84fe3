// Prints what the calls of `separation` and `quantiser` answer: the worked examples of the rules, both
// separations at the corners, each limit of the screen, stored numbers that are wrong, counts of screens
// that are not tested, tables of thresholds and thresholds by themselves, the colorants of phases, and mixed
// cases. The file stdout holds what this must print.
#![tactic(auto)]

ghost use Rattle.std.specs.Prelude.{◌<◌};

use arith::{Refusal, number_of};
use printing::Output;
use screen::Screen;
use separation::{Inks, Separation};
use std::fmt;

// Both separations.
const BOTH: [Separation; 2] = [Separation::Demichel, Separation::Kueppers];

// A screen, and a colour on it.
#[derive(Clone, Copy)]
struct Case {
    s: Screen,
    sep: Separation,
    inks: Inks,
}

fn main() {
    let _ = show_all(&mut Output);
}

fn show_all(out: &mut impl fmt::Write) -> fmt::Result {
    writeln!(
        out,
        "# c m y: scale, weights by Demichel; scale, weights by Kueppers"
    )?;
    corners(out)?;
    equal_values(out)?;
    orders(out)?;
    mixed_values(out)?;
    writeln!(out, "# a b n k g, separation, c m y: refusal; counts")?;
    marks(out)?;
    cells_and_subscreens(out)?;
    refused(out)?;
    stored_counts(out)?;
    writeln!(
        out,
        "# a b n k g, separation, c m y: counts, whatever the screen"
    )?;
    untested(out)?;
    writeln!(
        out,
        "# a b n k g, places: refusal; the table, every place 65535 before"
    )?;
    tables(out)?;
    stored_tables(out)?;
    writeln!(
        out,
        "# a b n k g: the thresholds of phases 0 to 21 and 4294967295, one by one"
    )?;
    lone_thresholds(out)?;
    writeln!(
        out,
        "# a b n k g, separation, c m y: the colorant of each phase"
    )?;
    phases(out)?;
    writeln!(out, "# bar: its colorant by levels 10 20 20 30 40 50 60 70")?;
    bars(out)?;
    writeln!(
        out,
        "# mixed: a b n k g, separation, c m y: refusal; counts"
    )?;
    mixed(out, 60, 1, 4200, 1000)?;
    mixed(out, 60, 2, 40, 10)
}

// Every ink empty or full.
fn corners(out: &mut impl fmt::Write) -> fmt::Result {
    for c in [0, 255] {
        for m in [0, 255] {
            for y in [0, 255] {
                show_weights(out, Inks { c, m, y })?;
            }
        }
    }
    Ok(())
}

// All three values equal, and two of them, the third below and above.
fn equal_values(out: &mut impl fmt::Write) -> fmt::Result {
    for v in [1, 127, 128, 254] {
        show_weights(out, inks_of(v, v, v))?;
    }
    show_weights(out, inks_of(40, 40, 200))?;
    show_weights(out, inks_of(40, 200, 40))?;
    show_weights(out, inks_of(200, 40, 40))?;
    show_weights(out, inks_of(200, 200, 40))?;
    show_weights(out, inks_of(200, 40, 200))?;
    show_weights(out, inks_of(40, 200, 200))
}

// Three values in each of their six orders.
fn orders(out: &mut impl fmt::Write) -> fmt::Result {
    show_weights(out, inks_of(51, 102, 204))?;
    show_weights(out, inks_of(51, 204, 102))?;
    show_weights(out, inks_of(102, 51, 204))?;
    show_weights(out, inks_of(204, 51, 102))?;
    show_weights(out, inks_of(102, 204, 51))?;
    show_weights(out, inks_of(204, 102, 51))
}

fn mixed_values(out: &mut impl fmt::Write) -> fmt::Result {
    show_weights(out, inks_of(128, 128, 0))?;
    show_weights(out, inks_of(0, 1, 255))?;
    show_weights(out, inks_of(254, 255, 0))?;
    show_weights(out, inks_of(1, 0, 254))?;
    show_weights(out, inks_of(13, 77, 250))?;
    show_weights(out, inks_of(191, 7, 66))?;
    show_weights(out, inks_of(99, 100, 101))
}

// The counts of rules 12.3, 12.5 and 12.6; those of one colorant alone, and halves beside 1 cell.
fn marks(out: &mut impl fmt::Write) -> fmt::Result {
    let listed = screen_of(4, 7, 105, 2, 0);
    show_both(out, listed, inks_of(128, 128, 0))?;
    show_both(out, listed, inks_of(255, 0, 0))?;
    show_both(out, listed, inks_of(0, 0, 0))?;
    show_both(out, screen_of(4, 7, 70, 2, 0), inks_of(51, 102, 204))?;
    show_both(out, screen_of(1, 2, 1, 1, 0), inks_of(128, 0, 0))?;
    show_both(out, screen_of(1, 2, 1, 1, 0), inks_of(127, 0, 0))
}

// n of 1, 2 and 4096; k of 1 and 16, and k equal to n.
fn cells_and_subscreens(out: &mut impl fmt::Write) -> fmt::Result {
    show_both(out, screen_of(1, 2, 1, 1, 0), inks_of(100, 150, 200))?;
    show_both(out, screen_of(1, 2, 2, 2, 1), inks_of(100, 150, 200))?;
    show_both(out, screen_of(4, 7, 5, 5, 4), inks_of(200, 150, 100))?;
    show_both(out, screen_of(4, 7, 16, 16, 0), inks_of(30, 120, 220))?;
    show_both(out, screen_of(4, 7, 105, 16, 104), inks_of(30, 120, 220))?;
    let largest = screen_of(63, 64, 4096, 16, 4095);
    show_both(out, largest, inks_of(0, 0, 0))?;
    show_both(out, largest, inks_of(255, 255, 255))?;
    show_both(out, largest, inks_of(13, 77, 250))?;
    show_both(out, screen_of(63, 64, 4096, 1, 0), inks_of(128, 127, 129))?;
    show_both(out, screen_of(63, 64, 4095, 7, 0), inks_of(1, 254, 128))
}

// Refusals 1 to 4, at their limits, and the lowest of several.
fn refused(out: &mut impl fmt::Write) -> fmt::Result {
    let screens = [
        screen_of(4, 8, 105, 2, 0),
        screen_of(0, 7, 105, 2, 0),
        screen_of(63, 65, 105, 2, 0),
        screen_of(4, 7, 0, 1, 0),
        screen_of(4, 7, 4097, 2, 0),
        screen_of(4, 7, 4294967295, 2, 0),
        screen_of(4, 7, 105, 0, 0),
        screen_of(4, 7, 105, 17, 0),
        screen_of(4, 7, 5, 6, 0),
        screen_of(4, 7, 70, 2, 70),
        screen_of(4, 8, 0, 0, 0),
        screen_of(4, 7, 0, 0, 0),
        screen_of(4, 7, 5, 6, 5),
    ];
    for s in screens {
        show_both(out, s, inks_of(51, 102, 204))?;
    }
    Ok(())
}

// Refusal 15: each stored number wrong by itself, and all of them; and 3, which comes first.
fn stored_counts(out: &mut impl fmt::Write) -> fmt::Result {
    let listed = screen_of(4, 7, 105, 2, 0);
    let screens = [
        storing(listed, 105, 1, 77),
        storing(listed, 104, 1, 77),
        storing(listed, 105, 2, 77),
        storing(listed, 105, 1, 182),
        storing(listed, 35, 2, 14),
        storing(screen_of(4, 7, 105, 17, 0), 105, 1, 182),
    ];
    for s in screens {
        show_stored(out, s)?;
        show_both(out, s, inks_of(51, 102, 204))?;
    }
    Ok(())
}

// An admitted screen, one that 1 refuses, and those of no cells, of the most cells and of wrong numbers.
fn untested(out: &mut impl fmt::Write) -> fmt::Result {
    show_counted(out, screen_of(4, 7, 105, 2, 0))?;
    show_counted(out, screen_of(4, 8, 20, 3, 0))?;
    show_counted(out, screen_of(4, 7, 0, 2, 0))?;
    show_counted(out, screen_of(4, 7, 4294967295, 2, 0))?;
    let false_shift = storing(screen_of(4, 7, 105, 2, 0), 105, 1, 182);
    show_stored(out, false_shift)?;
    show_counted(out, false_shift)
}

fn show_counted(out: &mut impl fmt::Write, s: Screen) -> fmt::Result {
    let inks = inks_of(51, 102, 204);
    for sep in BOTH {
        let case = Case { s, sep, inks };
        writeln!(out, "{case}: {}", Counts(quantiser::counted(s, sep, inks)))?;
    }
    Ok(())
}

// Tables of n - 1, n and n + 1 places, of none, and of n places for refused screens.
fn tables(out: &mut impl fmt::Write) -> fmt::Result {
    let s = screen_of(4, 7, 20, 3, 0);
    for places in [24, 21, 20, 19, 0] {
        show_table(out, s, places)?;
    }
    show_table(out, screen_of(4, 7, 20, 1, 19), 20)?;
    show_table(out, screen_of(4, 7, 20, 16, 0), 20)?;
    show_table(out, screen_of(4, 7, 16, 16, 0), 20)?;
    show_table(out, screen_of(1, 2, 1, 1, 0), 1)?;
    show_table(out, screen_of(1, 2, 1, 1, 0), 0)?;
    show_table(out, screen_of(4, 8, 20, 3, 0), 20)?;
    show_table(out, screen_of(4, 7, 0, 3, 0), 20)?;
    show_table(out, screen_of(4, 7, 20, 17, 0), 20)?;
    show_table(out, screen_of(4, 7, 20, 3, 20), 20)?;
    show_table(out, screen_of(4, 7, 20, 3, 20), 19)
}

// Refusal 15 before 8, and 4 before it.
fn stored_tables(out: &mut impl fmt::Write) -> fmt::Result {
    let s = screen_of(4, 7, 20, 3, 0);
    let cases = [
        (storing(s, 5, 4, 3), 20),
        (storing(s, 5, 4, 8), 20),
        (storing(s, 5, 4, 8), 19),
        (storing(Screen { g: 20, ..s }, 5, 4, 8), 19),
    ];
    for (s, places) in cases {
        show_stored(out, s)?;
        show_table(out, s, places)?;
    }
    Ok(())
}

// k of 3, 1 and 16, k equal to n, one cell; then screens that 1 and 15 refuse.
fn lone_thresholds(out: &mut impl fmt::Write) -> fmt::Result {
    show_lone(out, screen_of(4, 7, 20, 3, 0))?;
    show_lone(out, screen_of(4, 7, 20, 1, 19))?;
    show_lone(out, screen_of(4, 7, 20, 16, 0))?;
    show_lone(out, screen_of(4, 7, 16, 16, 0))?;
    show_lone(out, screen_of(1, 2, 1, 1, 0))?;
    show_lone(out, screen_of(4, 8, 20, 3, 0))?;
    let false_shift = storing(screen_of(4, 7, 20, 3, 0), 5, 4, 8);
    show_stored(out, false_shift)?;
    show_lone(out, false_shift)
}

fn show_lone(out: &mut impl fmt::Write, s: Screen) -> fmt::Result {
    write!(out, "{}:", Numbers(s))?;
    for phase in 0..22 {
        write!(out, " {}", quantiser::threshold(s, phase))?;
    }
    writeln!(out, " {}", quantiser::threshold(s, u32::MAX))
}

// Where each colorant stands: the screens of rules 12.1 to 12.6, k equal to n, and k of 16.
fn phases(out: &mut impl fmt::Write) -> fmt::Result {
    show_phases(out, screen_of(4, 7, 105, 2, 0), inks_of(128, 128, 0))?;
    show_phases(out, screen_of(4, 7, 70, 3, 0), inks_of(51, 102, 204))?;
    show_phases(out, screen_of(4, 7, 16, 16, 0), inks_of(30, 120, 220))?;
    show_phases(out, screen_of(4, 7, 105, 16, 0), inks_of(200, 90, 140))?;
    show_phases(out, screen_of(4, 7, 97, 1, 96), inks_of(13, 77, 250))?;
    show_phases(out, screen_of(4, 7, 33, 5, 0), inks_of(255, 255, 255))?;
    show_phases(out, screen_of(1, 2, 1, 1, 0), inks_of(128, 0, 0))?;
    show_phases(out, screen_of(1, 2, 1, 1, 0), inks_of(127, 0, 0))
}

// Bars beside levels, which no screen's thresholds meet, and above them all.
fn bars(out: &mut impl fmt::Write) -> fmt::Result {
    let levels = [10, 20, 20, 30, 40, 50, 60, 70];
    for bar in [0, 10, 11, 20, 21, 60, 61, 71, u64::MAX] {
        write!(out, "{bar}:")?;
        writeln!(out, " {}", quantiser::colorant_of(levels, bar))?;
    }
    Ok(())
}

// Numbers that are drawn one from the other.
#[derive(Clone, Copy)]
struct Draws {
    last: u32,
}

impl Draws {
    // The upper half of the next number, the lower one being too regular.
    fn next(&mut self) -> u32 {
        self.last = self.last.wrapping_mul(1664525).wrapping_add(1013904223);
        self.last / 65536
    }
}

// Screens and ink values, drawn one from the other, with cells and offsets below two limits.
fn mixed(out: &mut impl fmt::Write, cases: u32, start: u32, cells: u32, offsets: u32) -> fmt::Result
    requires { (0 < cells) × (0 < offsets) }
{
    let mut draws = Draws { last: start };
    for _ in 0..cases {
        let a = draws.next() % 12;
        let b = a + draws.next() % 2 + 1;
        let n = draws.next() % cells;
        let k = draws.next() % 18;
        let g = draws.next() % offsets;
        let c = (draws.next() % 256) as u8;
        let m = (draws.next() % 256) as u8;
        let y = (draws.next() % 256) as u8;
        show_both(out, screen_of(a, b, n, k, g), Inks { c, m, y })?;
    }
    Ok(())
}

// A screen that stores the numbers of its brick or, where 1 to 4 refuse it, zeros.
fn screen_of(a: u32, b: u32, n: u32, k: u32, g: u32) -> Screen {
    screen::make(a, b, n, k, g).unwrap_or(Screen {
        a,
        b,
        n,
        k,
        g,
        columns: 0,
        rows: 0,
        shift: 0,
    })
}

// A screen that stores other numbers.
fn storing(s: Screen, columns: u32, rows: u32, shift: u32) -> Screen {
    Screen {
        columns,
        rows,
        shift,
        ..s
    }
}

fn inks_of(c: u8, m: u8, y: u8) -> Inks {
    Inks { c, m, y }
}

fn show_weights(out: &mut impl fmt::Write, inks: Inks) -> fmt::Result {
    let [demichel, kueppers] = BOTH;
    let Inks { c, m, y } = inks;
    writeln!(
        out,
        "{c} {m} {y}: {},{}; {},{}",
        separation::scale(demichel),
        Spaced(&separation::weights(demichel, inks)),
        separation::scale(kueppers),
        Spaced(&separation::weights(kueppers, inks))
    )
}

fn show_both(out: &mut impl fmt::Write, s: Screen, inks: Inks) -> fmt::Result {
    for sep in BOTH {
        let case = Case { s, sep, inks };
        let counts = quantiser::counts(s, sep, inks);
        writeln!(
            out,
            "{case}: {}; {}",
            number_of(counts),
            Counts(counts.unwrap_or([0; 8]))
        )?;
    }
    Ok(())
}

// Lends the first places of a table of 24, and shows the whole table, what was not lent included.
fn show_table(out: &mut impl fmt::Write, s: Screen, places: usize) -> fmt::Result {
    let mut table = [65535u16; 24];
    let lent = places.min(table.len());
    let refusal = number_of(quantiser::thresholds(s, &mut table[..lent]));
    writeln!(
        out,
        "{}, {places}: {refusal};{}",
        Numbers(s),
        Spaced(&table)
    )
}

fn show_phases(out: &mut impl fmt::Write, s: Screen, inks: Inks) -> fmt::Result {
    let mut table = [0u16; 105];
    let _ = quantiser::thresholds(s, &mut table);
    for sep in BOTH {
        let case = Case { s, sep, inks };
        let levels = quantiser::levels(s.n, sep, inks);
        write!(out, "{case}: ")?;
        for &threshold in table.iter().take(s.n as usize) {
            write!(
                out,
                "{}",
                quantiser::colorant_of(levels, bar_of(sep, threshold))
            )?;
        }
        writeln!(out)?;
    }
    Ok(())
}

// A threshold, scaled by 2 × D as the levels are.
fn bar_of(sep: Separation, threshold: u16) -> u64 {
    let unit = 2 * separation::scale(sep);
    unit * u64::from(threshold)
}

// The heading of what is shown of a screen that stores these numbers.
fn show_stored(out: &mut impl fmt::Write, s: Screen) -> fmt::Result {
    writeln!(out, "# stored {} {} {}", s.columns, s.rows, s.shift)
}

// The five numbers of a screen.
#[derive(Clone, Copy)]
struct Numbers(Screen);

impl fmt::Display for Numbers {
    fn fmt<W: fmt::Write>(&self, f: &mut fmt::Formatter<W>) -> fmt::Result {
        let Screen { a, b, n, k, g, .. } = self.0;
        write!(f, "{a} {b} {n} {k} {g}")
    }
}

impl fmt::Display for Case {
    fn fmt<W: fmt::Write>(&self, f: &mut fmt::Formatter<W>) -> fmt::Result {
        let separation = match self.sep {
            Separation::Demichel => "demichel",
            Separation::Kueppers => "kueppers",
        };
        let Inks { c, m, y } = self.inks;
        write!(f, "{}, {separation}, {c} {m} {y}", Numbers(self.s))
    }
}

// The counts of the colorants, with spaces between.
#[derive(Clone, Copy)]
struct Counts([u32; 8]);

impl fmt::Display for Counts {
    fn fmt<W: fmt::Write>(&self, f: &mut fmt::Formatter<W>) -> fmt::Result {
        write!(f, "{}{}", self.0[0], Spaced(&self.0[1..]))
    }
}

// Values, each after a space.
#[derive(Clone, Copy)]
struct Spaced<'a, T>(&'a [T]);

impl<T: fmt::Display> fmt::Display for Spaced<'_, T> {
    fn fmt<W: fmt::Write>(&self, f: &mut fmt::Formatter<W>) -> fmt::Result {
        for value in self.0 {
            write!(f, " {value}")?;
        }
        Ok(())
    }
}
