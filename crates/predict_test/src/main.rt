// Prints what `predict` and `predict_cellular` answer, their values as the 16 hexadecimal digits of their
// bits. Of both: full tones, negative zeros, values that do not add up exactly, good and bad values beside
// the limits, bad screens, stored numbers that are wrong, and mixed cases. Of the second also: ink values in every
// order, equal counts, and runs of the right length and of others. The file stdout holds what this must print.
#![tactic(auto)]

ghost use Rattle.std.specs.Prelude.{◌<◌};

use arrayvec::ArrayString;
use predict::{CellularError, PredictionError, Xyz};
use printing::Output;
use screen::Screen;
use separation::{Inks, Separation};
use std::fmt;
use std::fmt::Write;

// The values of a run: 765, which are the records of all sets, and others beyond them.
const LENGTH: usize = 2048;

// Runs of whole numbers, of drawn hundredths, of which some from place 1700 on are bad, of a few times the
// smallest number above 0, and of the hundredths with a bad value in the first place.
#[derive(Drop)]
struct Runs {
    whole: [f64; LENGTH],
    uneven: [f64; LENGTH],
    small: [f64; LENGTH],
    bad: [f64; LENGTH],
}

fn main() {
    let _ = show_all(&mut Output);
}

fn show_all(out: &mut impl fmt::Write) -> fmt::Result {
    let uneven = run_of(|place, draw| hundredths(draw, if place < 1700 { 20001 } else { 20100 }));
    let runs = Runs {
        whole: run_of(|place, _| whole_value(place / 3 % 255 + 1, place % 3)),
        uneven,
        small: run_of(|place, _| f64::from(place % 7) * 5e-324),
        bad: with_value(&uneven, 0, -1.0),
    };
    writeln!(
        out,
        "# primaries or records, a b n k g, separation, c m y: answer"
    )?;
    full_tones(out, &runs)?;
    uneven_sums(out, &runs)?;
    orders(out, &runs)?;
    ties(out, &runs)?;
    limits(out, &runs)?;
    places(out)?;
    set_places(out, &runs)?;
    refusals(out, &runs)?;
    mixed(out, &runs)?;
    stored(out, &runs)
}

// One colorant alone, of 105, 1 and 4096 cells.
fn full_tones(out: &mut impl fmt::Write, runs: &Runs) -> fmt::Result {
    for s in [
        listed(),
        screen_of(1, 2, 1, 1, 0),
        screen_of(63, 64, 4096, 16, 4095),
    ] {
        for inks in [
            inks_of(255, 0, 0),
            inks_of(0, 255, 0),
            inks_of(0, 0, 255),
            inks_of(255, 255, 0),
            inks_of(255, 0, 255),
            inks_of(0, 255, 255),
            inks_of(255, 255, 255),
            inks_of(0, 0, 0),
        ] {
            show_whole(out, s, inks, runs)?;
        }
        show_uneven(out, s, inks_of(255, 0, 0), runs)?;
        show_uneven(out, s, inks_of(0, 0, 0), runs)?;
    }
    Ok(())
}

// Sums that are rounded, of whole numbers and of others.
fn uneven_sums(out: &mut impl fmt::Write, runs: &Runs) -> fmt::Result {
    for s in [
        listed(),
        screen_of(1, 2, 1, 1, 0),
        screen_of(4, 7, 3, 2, 0),
        screen_of(4, 7, 97, 1, 96),
        screen_of(63, 64, 4095, 7, 0),
        screen_of(63, 64, 4096, 16, 4095),
    ] {
        show_uneven(out, s, inks_of(128, 128, 0), runs)?;
        show_uneven(out, s, inks_of(51, 102, 204), runs)?;
        show_uneven(out, s, inks_of(200, 90, 140), runs)?;
        show_whole(out, s, inks_of(13, 77, 250), runs)?;
        show_sets_of_both(out, "small", s, inks_of(200, 90, 140), &runs.small)?;
    }
    Ok(())
}

// Counts by the three inks in every order.
fn orders(out: &mut impl fmt::Write, runs: &Runs) -> fmt::Result {
    for inks in [
        inks_of(40, 99, 211),
        inks_of(40, 211, 99),
        inks_of(99, 40, 211),
        inks_of(99, 211, 40),
        inks_of(211, 40, 99),
        inks_of(211, 99, 40),
    ] {
        show_sets_of_both(out, "uneven", listed(), inks, &runs.uneven)?;
    }
    Ok(())
}

// Two to eight equal counts.
fn ties(out: &mut impl fmt::Write, runs: &Runs) -> fmt::Result {
    for s in [screen_of(4, 7, 8, 1, 0), screen_of(4, 7, 24, 4, 3)] {
        for inks in [
            inks_of(128, 128, 128),
            inks_of(64, 128, 191),
            inks_of(85, 170, 85),
        ] {
            show_sets_of_both(out, "uneven", s, inks, &runs.uneven)?;
        }
    }
    Ok(())
}

// Values beside the limits and far from them, at the first and at the last colorant, in a set with weight and
// in one without.
fn limits(out: &mut impl fmt::Write, runs: &Runs) -> fmt::Result {
    for (name, v) in [
        ("200", 200.0),
        ("199.99999999999997", 199.99999999999997),
        ("200.00000000000003", 200.00000000000003),
        ("0", 0.0),
        ("-0", -0.0),
        ("5e-324", 5e-324),
        ("-5e-324", -5e-324),
        ("-1e-300", -1e-300),
        ("-1", -1.0),
        ("200.5", 200.5),
        ("1e300", 1e300),
        ("inf", 1.0 / 0.0),
        ("-inf", -1.0 / 0.0),
        ("nan", 0.0 / 0.0),
    ] {
        let call = Call {
            name,
            s: listed(),
            sep: Separation::Demichel,
            inks: inks_of(200, 90, 140),
        };
        write!(out, "0 x = ")?;
        call.show(out, with_first(v))?;
        write!(out, "7 z = ")?;
        call.show(out, with_last(v))?;
        write!(out, "set 89 x = ")?;
        call.show_sets(out, &with_value(&runs.uneven, 264, v), 0, 765)?;
        write!(out, "set 223 z = ")?;
        call.show_sets(out, &with_value(&runs.uneven, 668, v), 0, 765)?;
    }
    Ok(())
}

// A bad Y at each colorant, that of the last being bad too.
fn places(out: &mut impl fmt::Write) -> fmt::Result {
    let call = Call {
        name: "nan",
        s: listed(),
        sep: Separation::Kueppers,
        inks: inks_of(0, 0, 0),
    };
    for j in 0..8 {
        let mut ps = with_last(-1.0);
        ps[j] = Xyz {
            x: 1.0,
            y: 0.0 / 0.0,
            z: 1.0,
        };
        write!(out, "{j} y = ")?;
        call.show(out, ps)?;
    }
    Ok(())
}

// A bad value in the first, the last and other sets, the last place of all being bad too.
fn set_places(out: &mut impl fmt::Write, runs: &Runs) -> fmt::Result {
    let run = with_value(&runs.uneven, 764, -1.0);
    let call = Call {
        name: "nan",
        s: listed(),
        sep: Separation::Demichel,
        inks: inks_of(200, 90, 140),
    };
    for place in [
        0, 1, 2, 3, 5, 6, 264, 266, 380, 381, 383, 384, 668, 761, 762, 764,
    ] {
        write!(out, "place {place} = ")?;
        call.show_sets(out, &with_value(&run, place, 0.0 / 0.0), 0, 765)?;
    }
    Ok(())
}

// Lengths beside the right one, and others; and bad screens.
fn refusals(out: &mut impl fmt::Write, runs: &Runs) -> fmt::Result {
    for (name, run) in [("uneven", &runs.uneven), ("set 1 x = -1", &runs.bad)] {
        for length in [0, 1, 24, 762, 764, 765, 766, 768] {
            show_length(out, name, listed(), run, length)?;
        }
    }
    bad_screens(out, runs)
}

// Refusals 1 to 4, at their limits, with good primaries and with a bad one, and with runs of right and of
// wrong length.
fn bad_screens(out: &mut impl fmt::Write, runs: &Runs) -> fmt::Result {
    for s in [
        screen_of(4, 8, 105, 2, 0),
        screen_of(0, 7, 105, 2, 0),
        screen_of(63, 65, 105, 2, 0),
        screen_of(4, 7, 0, 1, 0),
        screen_of(4, 7, 4097, 2, 0),
        screen_of(4, 7, 4294967295, 2, 0),
        screen_of(4, 7, 105, 0, 0),
        screen_of(4, 7, 105, 17, 0),
        screen_of(4, 7, 5, 6, 0),
        screen_of(4, 7, 70, 2, 70),
        screen_of(4, 8, 0, 0, 0),
        screen_of(4, 7, 5, 6, 5),
    ] {
        refused(out, s, runs)?;
    }
    Ok(())
}

fn refused(out: &mut impl fmt::Write, s: Screen, runs: &Runs) -> fmt::Result {
    let inks = inks_of(255, 0, 0);
    show_both(out, "whole", s, inks, whole())?;
    write!(out, "0 x = ")?;
    let call = Call {
        name: "nan",
        s,
        sep: Separation::Kueppers,
        inks,
    };
    call.show(out, with_first(0.0 / 0.0))?;
    show_sets_of_both(out, "uneven", s, inks, &runs.uneven)?;
    show_length(out, "uneven", s, &runs.uneven, 764)?;
    show_length(out, "set 1 x = -1", s, &runs.bad, 765)?;
    show_length(out, "set 1 x = -1", s, &runs.bad, 766)
}

// Refusal 15 of each stored number, in the same calls; and 3 before it.
fn stored(out: &mut impl fmt::Write, runs: &Runs) -> fmt::Result {
    for (k, columns, rows, shift) in [
        (2, 106, 1, 77),
        (2, 105, 2, 77),
        (2, 105, 1, 182),
        (17, 105, 1, 182),
    ] {
        writeln!(out, "# stored {columns} {rows} {shift}")?;
        let s = Screen {
            a: 4,
            b: 7,
            n: 105,
            k,
            g: 0,
            columns,
            rows,
            shift,
        };
        refused(out, s, runs)?;
    }
    Ok(())
}

// Screens, ink values and primaries that are drawn one from the other, from each start, and from every
// second one records that begin at a drawn place.
fn mixed(out: &mut impl fmt::Write, runs: &Runs) -> fmt::Result {
    for start in 0..80 {
        mixed_case(out, start, runs)?;
    }
    Ok(())
}

fn mixed_case(out: &mut impl fmt::Write, start: u32, runs: &Runs) -> fmt::Result {
    let a = next(start);
    let b = next(a);
    let n = next(b);
    let k = next(n);
    let g = next(k);
    let c = next(g);
    let m = next(c);
    let y = next(m);
    let low = upper(a) % 12;
    let high = low + upper(b) % 2 + 1;
    let s = screen_of(low, high, upper(n) % 4200, upper(k) % 18, upper(g) % 100);
    let inks = inks_of(lowest(upper(c)), lowest(upper(m)), lowest(upper(y)));
    show_both(out, "drawn", s, inks, drawn(y))?;
    if start % 2 == 0 {
        let from = (upper(y) % 1283) as usize;
        show_parts_of_both(out, "drawn", s, inks, &runs.uneven, from)?;
    }
    Ok(())
}

// Primaries that are drawn after the number given.
fn drawn(start: u32) -> [Xyz; 8] {
    let mut ps = uneven();
    let mut last = start;
    for p in &mut ps {
        let x = next(last);
        let y = next(x);
        let z = next(y);
        *p = Xyz {
            x: hundredths(upper(x), 20100),
            y: hundredths(upper(y), 20100),
            z: hundredths(upper(z), 20100),
        };
        last = z;
    }
    ps
}

// So many hundredths, below a limit: those above 20000 are bad.
fn hundredths(draw: u32, below: u32) -> f64
    requires { 0 < below }
{
    f64::from(draw % below) / 100.0
}

// A run whose values are given by their places and by numbers that are drawn one from the other.
fn run_of<F: Fn(u32, u32) -> f64>(value: F) -> [f64; LENGTH]
    requires { F.IsAlwaysCallable value }
{
    let mut run = [0.0; LENGTH];
    let mut last = 0;
    for (v, place) in run.iter_mut().zip(0..2048) {
        last = next(last);
        *v = value(place, upper(last));
    }
    run
}

// X and Y of a set are whole numbers from 0 to 200; Z is 0, of single colorants plus and minus in turn.
fn whole_value(set: u32, channel: u32) -> f64 {
    match channel {
        0 => f64::from((set % 256 + 137) % 201),
        1 => f64::from(set % 256 * 25 % 201),
        _ if set % 3 == 1 => 0.0,
        _ => -0.0,
    }
}

// The number drawn after another.
fn next(n: u32) -> u32 {
    n.wrapping_mul(1664525).wrapping_add(1013904223)
}

// The upper half of a drawn number, the lower one being too regular.
fn upper(n: u32) -> u32 {
    n >> 16
}

// The lowest byte of a number.
fn lowest(n: u32) -> u8 {
    (n & 0xff) as u8
}

fn listed() -> Screen {
    screen_of(4, 7, 105, 2, 0)
}

// Whole numbers; Z is 0, plus and minus in turn.
fn whole() -> [Xyz; 8] {
    [
        [0.0, 200.0, 0.0],
        [1.0, 199.0, -0.0],
        [2.0, 100.0, 0.0],
        [3.0, 64.0, -0.0],
        [127.0, 63.0, 0.0],
        [128.0, 3.0, -0.0],
        [199.0, 2.0, 0.0],
        [200.0, 1.0, -0.0],
    ]
    .map(|[x, y, z]| Xyz { x, y, z })
}

fn uneven() -> [Xyz; 8] {
    [
        [0.1, 12.3, 199.9],
        [0.7, 33.3, 0.01],
        [1.1, 0.2, 99.99],
        [33.3, 150.7, 5e-324],
        [77.7, 0.3, 1e-300],
        [123.456, 66.6, 0.333],
        [2.2, 1e-17, 111.1],
        [95.047, 100.1, 108.883],
    ]
    .map(|[x, y, z]| Xyz { x, y, z })
}

fn with_first(v: f64) -> [Xyz; 8] {
    let mut ps = uneven();
    ps[0].x = v;
    ps
}

fn with_last(v: f64) -> [Xyz; 8] {
    let mut ps = uneven();
    ps[7].z = v;
    ps
}

// A run with another value at a place.
fn with_value(run: &[f64; LENGTH], place: usize, v: f64) -> [f64; LENGTH] {
    let mut run = *run;
    if let Some(there) = run.get_mut(place) {
        *there = v;
    }
    run
}

// A screen that stores the numbers of its brick or, where 1 to 4 refuse it, zeros.
fn screen_of(a: u32, b: u32, n: u32, k: u32, g: u32) -> Screen {
    screen::make(a, b, n, k, g).unwrap_or(Screen {
        a,
        b,
        n,
        k,
        g,
        columns: 0,
        rows: 0,
        shift: 0,
    })
}

fn inks_of(c: u8, m: u8, y: u8) -> Inks {
    Inks { c, m, y }
}

fn show_whole(out: &mut impl fmt::Write, s: Screen, inks: Inks, runs: &Runs) -> fmt::Result {
    show_both(out, "whole", s, inks, whole())?;
    show_sets_of_both(out, "whole", s, inks, &runs.whole)
}

fn show_uneven(out: &mut impl fmt::Write, s: Screen, inks: Inks, runs: &Runs) -> fmt::Result {
    show_both(out, "uneven", s, inks, uneven())?;
    show_sets_of_both(out, "uneven", s, inks, &runs.uneven)
}

// By both separations: primaries, and the sets of a run from its first place or from another on.
fn show_both(
    out: &mut impl fmt::Write,
    name: &str,
    s: Screen,
    inks: Inks,
    ps: [Xyz; 8],
) -> fmt::Result {
    for sep in [Separation::Demichel, Separation::Kueppers] {
        Call { name, s, sep, inks }.show(out, ps)?;
    }
    Ok(())
}

fn show_sets_of_both(
    out: &mut impl fmt::Write,
    name: &str,
    s: Screen,
    inks: Inks,
    run: &[f64],
) -> fmt::Result {
    show_parts_of_both(out, name, s, inks, run, 0)
}

fn show_parts_of_both(
    out: &mut impl fmt::Write,
    name: &str,
    s: Screen,
    inks: Inks,
    run: &[f64],
    from: usize,
) -> fmt::Result {
    for sep in [Separation::Demichel, Separation::Kueppers] {
        Call { name, s, sep, inks }.show_sets(out, run, from, 765)?;
    }
    Ok(())
}

// So many values of a run.
fn show_length(
    out: &mut impl fmt::Write,
    name: &str,
    s: Screen,
    run: &[f64],
    length: usize,
) -> fmt::Result {
    write!(out, "length {length}, ")?;
    let call = Call {
        name,
        s,
        sep: Separation::Kueppers,
        inks: inks_of(51, 102, 204),
    };
    call.show_sets(out, run, 0, length)
}

// What is called with: the name of the primaries or the records, the screen, the separation and the inks.
#[derive(Clone, Copy)]
struct Call<'a> {
    name: &'a str,
    s: Screen,
    sep: Separation,
    inks: Inks,
}

impl Call<'_> {
    fn show(&self, out: &mut impl fmt::Write, ps: [Xyz; 8]) -> fmt::Result {
        let answer = Plain(predict::predict(self.s, self.sep, self.inks, ps));
        writeln!(out, "{self}: {answer}")
    }

    // Lends so many places of a run, from one on, where it has them.
    fn show_sets(
        &self,
        out: &mut impl fmt::Write,
        run: &[f64],
        from: usize,
        length: usize,
    ) -> fmt::Result {
        let Some(sets) = run.get(from..).and_then(|rest| rest.get(..length)) else {
            return Ok(());
        };
        let answer = Sets(predict::predict_cellular(self.s, self.sep, self.inks, sets));
        writeln!(out, "{self}: {answer}")
    }
}

impl fmt::Display for Call<'_> {
    fn fmt<W: fmt::Write>(&self, f: &mut fmt::Formatter<W>) -> fmt::Result {
        let Screen { a, b, n, k, g, .. } = self.s;
        let Inks { c, m, y } = self.inks;
        let sep = match self.sep {
            Separation::Demichel => "demichel",
            Separation::Kueppers => "kueppers",
        };
        write!(f, "{}, {a} {b} {n} {k} {g}, {sep}, {c} {m} {y}", self.name)
    }
}

// What `predict` answers.
#[derive(Clone, Copy)]
struct Plain(Result<Xyz, PredictionError>);

impl fmt::Display for Plain {
    fn fmt<W: fmt::Write>(&self, f: &mut fmt::Formatter<W>) -> fmt::Result {
        match self.0 {
            Ok(p) => write!(f, "colour{}", Values(p)),
            Err(PredictionError::Primary(colorant)) => numbered(f, "bad primary", colorant),
            Err(PredictionError::Screen(refusal)) => numbered(f, "bad screen", u32::from(refusal)),
        }
    }
}

// What `predict_cellular` answers.
#[derive(Clone, Copy)]
struct Sets(Result<Xyz, CellularError>);

impl fmt::Display for Sets {
    fn fmt<W: fmt::Write>(&self, f: &mut fmt::Formatter<W>) -> fmt::Result {
        match self.0 {
            Ok(p) => write!(f, "cellular{}", Values(p)),
            Err(CellularError::Set(set)) => numbered(f, "bad set", set),
            Err(CellularError::Refused(refusal)) => numbered(f, "refused", u32::from(refusal)),
        }
    }
}

// Words, a space and a number, each a write of its own.
fn numbered<W: fmt::Write>(f: &mut fmt::Formatter<W>, words: &str, number: u32) -> fmt::Result {
    write!(f, "{words} {number}")
}

// X, Y and Z, a space before each.
#[derive(Clone, Copy)]
struct Values(Xyz);

impl fmt::Display for Values {
    fn fmt<W: fmt::Write>(&self, f: &mut fmt::Formatter<W>) -> fmt::Result {
        write!(f, "{}{}{}", Bits(self.0.x), Bits(self.0.y), Bits(self.0.z))
    }
}

// A space, and the digits of a value's bits in one write, which `{:016x}` alone would cut after its zeros; a NaN has
// none that are told.
#[derive(Clone, Copy)]
struct Bits(f64);

impl fmt::Display for Bits {
    fn fmt<W: fmt::Write>(&self, f: &mut fmt::Formatter<W>) -> fmt::Result {
        if self.0.is_nan() {
            return write!(f, " nan");
        }
        let mut digits = ArrayString::<16>::new();
        write!(digits, "{:016x}", self.0.to_bits())?;
        write!(f, " {digits}")
    }
}
