// Prints what `bill::charge` answers: the worked examples, prices and tallies that are all different, each
// limit of refusals 6, 12 and 13 from both sides, several refusals at once, rounding, and jobs beside their
// windows. The file stdout holds what this must print.
#![tactic(auto)]

ghost use Rattle.std.specs.Prelude.{◌<◌};

use arith::number_of;
use printing::Output;
use std::fmt;
use std::fmt::Display;

// The most cells of a window.
const FULL: u64 = 4294967296;

// An eighth of them.
const EVEN: u64 = 536870912;

// The largest number of 64 bits.
const TOP: u64 = 18446744073709551615;

// Twice this is 0 in 64 bits.
const HALF: u64 = 9223372036854775808;

// Eight times this is 0 in 64 bits.
const EIGHTH: u64 = 2305843009213693952;

// The lowest price, and the highest.
const LOW: [u32; 8] = [1; 8];

const HIGH: [u32; 8] = [1000000; 8];

// A hundred and five cells in half tones of cyan and magenta.
const BRICK: [u64; 8] = [26, 26, 0, 27, 0, 0, 0, 26];

fn main() {
    let _ = show_all(&mut Output);
}

fn show_all(out: &mut impl fmt::Write) -> fmt::Result {
    writeln!(out, "# job: refusal cents")?;
    examples(out)?;
    places(out)?;
    lengths(out)?;
    price_limits(out)?;
    window_limits(out)?;
    full_windows(out)?;
    wide_numbers(out)?;
    lowest_first(out)?;
    rounding(out)?;
    jobs_and_windows(out)?;
    most_saved(out)
}

// The worked example (rule 12.15): a window once and twice, one cell, free ink and the largest job; and no
// cell at all.
fn examples(out: &mut impl fmt::Write) -> fmt::Result {
    show(out, "a cent a cell", HIGH, &BRICK)?;
    show(out, "a cent a cell, twice", HIGH, [BRICK; 2].as_flattened())?;
    show(out, "one cell", LOW, &ends(1, 0))?;
    show(out, "free ink", [0; 8], &BRICK)?;
    show(out, "largest job", HIGH, &[EVEN; 8000])?;
    show(out, "no cell", HIGH, &[0; 8])
}

// Prices and tallies that all differ, so that each exchange of two shows: a window, and with it a second whose
// tallies are in another order.
fn places(out: &mut impl fmt::Write) -> fmt::Result {
    let rising = [1, 20, 300, 4000, 50000, 600000, 700007, 1000000];
    let falling = [1000000, 700007, 600000, 50000, 4000, 300, 20, 1];
    let first = [900000001, 80000002, 7000003, 600004, 50005, 4006, 307, 28];
    let second = [60013, 1017, 500019, 9000023, 70000029, 31, 800000037, 241];
    let both = [first, second];
    show(out, "rising prices", rising, &first)?;
    show(out, "falling prices", falling, &first)?;
    show(
        out,
        "rising prices, two windows",
        rising,
        both.as_flattened(),
    )?;
    show(
        out,
        "falling prices, two windows",
        falling,
        both.as_flattened(),
    )
}

// Refusals 6 and 13: lengths beside a multiple of 8, no window, and beside 1,000 windows.
fn lengths(out: &mut impl fmt::Write) -> fmt::Result {
    let run = [1; 8016];
    for length in [
        0, 1, 7, 8, 9, 15, 16, 17, 7992, 7999, 8000, 8001, 8007, 8008, 8009, 8016,
    ] {
        show(
            out,
            format_args!("length {length}"),
            HIGH,
            first(&run, length),
        )?;
    }
    Ok(())
}

// Refusal 12: each price at its limit and beyond it, where all other ink is free.
fn price_limits(out: &mut impl fmt::Write) -> fmt::Result {
    for place in 0..8 {
        for price in [999999, 1000000, 1000001, 4294967295] {
            let mut prices = [0; 8];
            prices[place] = price;
            let name = format_args!("price {place} of {price}");
            show(out, name, prices, &[10, 20, 30, 40, 50, 60, 70, 80])?;
        }
    }
    Ok(())
}

// Refusal 13: a window of 4,294,967,296 cells and of one more, in one tally or in several.
fn window_limits(out: &mut impl fmt::Write) -> fmt::Result {
    for window in 0..3 {
        show_tallies(out, 8 * window)?;
        show_tallies(out, 8 * window + 7)?;
    }
    show(out, "4294967295 and 1", LOW, &ends(4294967295, 1))?;
    show(out, "4294967295 and 2", LOW, &ends(4294967295, 2))?;
    show(out, "4294967296 and 1", LOW, &ends(FULL, 1))?;
    show(out, "1 and 4294967296", LOW, &ends(1, FULL))?;
    let mut even = [EVEN; 8];
    show(out, "even", LOW, &even)?;
    even[4] += 1;
    show(out, "even and 1", LOW, &even)
}

// One tally of a job of three windows that has no other cells: at its limit and beyond it.
fn show_tallies(out: &mut impl fmt::Write, place: usize) -> fmt::Result
    requires { place < 24 }
{
    for tally in [FULL, FULL + 1] {
        let mut run = [0; 24];
        run[place] = tally;
        show(out, format_args!("tally {place} of {tally}"), LOW, &run)?;
    }
    Ok(())
}

// The limit is each window's own: neighbours that are full, and a cell more in the first and in the last of
// 1,000 full windows.
fn full_windows(out: &mut impl fmt::Write) -> fmt::Result {
    let three = [ends(0, FULL), ends(FULL, 0), ends(FULL, 0)];
    show(out, "three full windows", LOW, three.as_flattened())?;
    let mut run = [EVEN; 8000];
    show(out, "1000 full windows", LOW, &run)?;
    run[7999] = EVEN + 1;
    show(out, "a cell more in the last", LOW, &run)?;
    run[7999] = EVEN;
    run[0] = EVEN + 1;
    show(out, "a cell more in the first", LOW, &run)
}

// Refusal 13: tallies that add up to 0, or to little, in 64 bits or in 32.
fn wide_numbers(out: &mut impl fmt::Write) -> fmt::Result {
    show(out, "top in all", LOW, &[TOP; 8])?;
    show(out, "top first", LOW, &ends(TOP, 0))?;
    show(out, "top last", LOW, &ends(0, TOP))?;
    show(out, "top and 1", LOW, &ends(TOP, 1))?;
    show(out, "1 and top", LOW, &ends(1, TOP))?;
    show(out, "half twice", LOW, &ends(HALF, HALF))?;
    show(out, "an eighth in all", LOW, &[EIGHTH; 8])?;
    show(out, "no lower half", LOW, &ends(18446744069414584320, 0))?;
    let mut run = [1; 16];
    run[8] = HALF;
    run[15] = HALF;
    show(out, "half twice in the second window", LOW, &run)?;
    run[8] = 1;
    run[7] = HALF;
    show(out, "half in each window", LOW, &run)
}

// Of several refusals the lowest number is answered.
fn lowest_first(out: &mut impl fmt::Write) -> fmt::Result {
    let wrong = [0, 0, 0, 0, 0, 0, 0, 1000001];
    let run = [TOP; 8016];
    let free = [0; 8016];
    show(out, "6 and 12", wrong, &free[..9])?;
    show(out, "6 and 13, a window", HIGH, &run[..9])?;
    show(out, "6 and 13, a part of one", HIGH, &run[..7])?;
    show(out, "6 and 13, 1001 windows", HIGH, &free[..8009])?;
    show(out, "12 and 13, no window", wrong, &free[..0])?;
    show(out, "12 and 13, a window", wrong, &run[..8])?;
    show(out, "12 and 13, 1001 windows", wrong, &free[..8008])?;
    show(out, "6, 12 and 13, a window", wrong, &run[..9])?;
    show(out, "6, 12 and 13, 1001 windows", wrong, &run[..8009])?;
    show(out, "13 and 13", HIGH, &run[..8008])
}

// Costs beside whole cents: what all colorants cost together is rounded, not what each costs.
fn rounding(out: &mut impl fmt::Write) -> fmt::Result {
    show(out, "cost 0", LOW, &[0; 8])?;
    show(out, "cost 999999", LOW, &ends(999999, 0))?;
    show(out, "cost 1000000", LOW, &ends(1000000, 0))?;
    show(out, "cost 1000001", LOW, &ends(0, 1000001))?;
    show(out, "eight times 125000", LOW, &[125000; 8])?;
    show(out, "eight times 125001", LOW, &[125001; 8])?;
    let below = [999999; 8];
    show(out, "1 at 999999", below, &ends(0, 1))?;
    show(out, "999999 at 999999", below, &ends(999999, 0))?;
    show(out, "1000001 at 999999", below, &ends(1000000, 1))?;
    let half = [500000; 8];
    show(out, "two halves", half, &ends(1, 1))?;
    show(out, "three halves", half, &ends(1, 2))
}

// Jobs of three windows, each window after it as a job of its own: together these cost 0, 0, 1, 2 and 2
// cents more.
fn jobs_and_windows(out: &mut impl fmt::Write) -> fmt::Result {
    show_job(out, "whole cents", [1000000, 2000000, 3000000])?;
    show_job(out, "whole cents and a cell", [1000000, 2000000, 1])?;
    show_job(out, "half cents", [500001; 3])?;
    show_job(out, "cents and a cell each", [1000001, 2000001, 3000001])?;
    show_job(out, "three cells", [1; 3])
}

// A job whose windows have these cells, each in one colorant, at a price of 1.
fn show_job(out: &mut impl fmt::Write, name: &str, cells: [u64; 3]) -> fmt::Result {
    let mut windows = [[0; 8]; 3];
    windows[0][0] = cells[0];
    windows[1][3] = cells[1];
    windows[2][7] = cells[2];
    show(out, name, LOW, windows.as_flattened())?;
    let names = ["its first window", "its second window", "its third window"];
    for (name, window) in names.iter().zip(&windows) {
        show(out, name, LOW, window)?;
    }
    Ok(())
}

// Jobs of 1,000 windows, each with two of these: a window costs a cent, and the windows together cost 999
// cents more than the first job and as much as the second.
fn most_saved(out: &mut impl fmt::Write) -> fmt::Result {
    let run = [1; 8000];
    let whole = [125000; 8000];
    show(out, "eight cells in each of 1000 windows", LOW, &run)?;
    show(out, "its first window", LOW, &run[..8])?;
    show(out, "its last window", LOW, &run[7992..])?;
    show(out, "a million cells in each of 1000 windows", LOW, &whole)?;
    show(out, "its first window", LOW, &whole[..8])?;
    show(out, "its last window", LOW, &whole[7992..])
}

// Tallies of which all but the first and the last are 0.
fn ends(first: u64, last: u64) -> [u64; 8] {
    [first, 0, 0, 0, 0, 0, 0, last]
}

// The first tallies of a run, or all where it has no more.
fn first(run: &[u64], length: usize) -> &[u64] {
    &run[..length.min(run.len())]
}

// Shows the charge of a job: its refusal, 0 where there is none, and its cents, 0 beside a refusal.
fn show(
    out: &mut impl fmt::Write,
    name: impl Display + Drop,
    prices: [u32; 8],
    run: &[u64],
) -> fmt::Result {
    let cents = bill::charge(prices, run);
    writeln!(out, "{name}: {} {}", number_of(cents), cents.unwrap_or(0))
}
