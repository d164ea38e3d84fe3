// What a cell's colorant needs: levels, once a colour, and a threshold. A renderer has the thresholds of all
// phases, once a call, and so divides for no cell; a lone phase has its own.
ghost use Rattle.std.specs.Prelude.{◌≡◌, ◌++◌, ℕ, suc, ◌+◌, ◌-◌, ◌*◌, ◌≤◌, ◌<◌, length, get_or, drop, sum_by, nat_lt};
ghost use Rattle.arith.specs.Refusal.{number_of};
ghost use Rattle.arith.specs.Sum.{sum_below, indicator};
ghost use Rattle.arith.specs.Run.{upto};
ghost use Rattle.screen.specs.Screens.{Admitted};
ghost use Rattle.screen.specs.Brick.{buffer_refusal};
ghost use Rattle.quantiser.specs.Leaves.{levels_of, threshold_of, thresholds_in, lone_threshold, rank};

use arith::Refusal;
use screen::Screen;
use separation::{Inks, Separation};

// The eight levels of a colour on n cells: 2 × D times a running sum, before it is rounded.
pub fn levels(n: u32, sep: Separation, inks: Inks) -> [u64; 8]
    ensures { result ≡ levels_of n sep inks }
{
    let weights = separation::weights(sep, inks);
    let scale = separation::scale(sep);
    raised(weights, 2 * u64::from(n), scale)
}

// The running sums of the weights, each times a factor and with the scale added.
fn raised(weights: [u64; 8], factor: u64, scale: u64) -> [u64; 8]
    requires { ((j : ℕ) → j ≤ 8 → sum_below j (λ i. get_or weights i 0) ≤ scale) × (factor ≤ 8589934590) × (scale ≤ 16581375) }
    ensures { result ≡ upto (λ j. factor * sum_below (suc j) (λ i. get_or weights i 0) + scale) 8 }
{
    let mut sum = 0;
    weights.map(
        |weight|
            requires { (sum + weight ≤ scale) × (factor ≤ 8589934590) × (scale ≤ 16581375) }
        {
            sum += weight;
            factor * sum + scale
        },
    )
}

// Writes the thresholds of a screen's phases to the first n places of a lent table; refused, writes nothing.
// A table is refused as a brick buffer is.
#[tactic(auto, using(arith::proofs::RefusalLaws::number_above, crate::proofs::LevelLaws::table_error, crate::proofs::LevelLaws::table_short, crate::proofs::LevelLaws::table_fits, crate::proofs::LevelLaws::thresholds_refused, crate::proofs::LevelLaws::thresholds_short, crate::proofs::LevelLaws::thresholds_served))]
pub fn thresholds(s: Screen, table: &mut [u16]) -> Result<(), Refusal>
    ensures refused { number_of result ≡ buffer_refusal s (length table.old) }
    ensures places { table.new ≡ thresholds_in s table.old }
{
    screen::check(s)?;
    if table.len() < s.n as usize {
        return Err(Refusal::Brick);
    }
    rank_phases(s, table);
    Ok(())
}

// The threshold of a lone phase; 0, which is above no level, where the screen is not admitted or has no such
// phase.
#[tactic(auto, using(crate::proofs::LevelLaws::err_above, crate::proofs::LevelLaws::lone_refused, crate::proofs::LevelLaws::lone_beyond, crate::proofs::LevelLaws::lone_whole))]
pub fn threshold(s: Screen, phase: u32) -> u32
    ensures { result ≡ lone_threshold s phase }
{
    if screen::check(s).is_err() {
        return 0;
    }
    if s.n <= phase {
        return 0;
    }
    threshold_of(s, phase)
}

// The threshold of a phase. Subscreens are passed until one ends after it; `passed` is how many phases they
// have. The phase is in one of them, as they have the n phases together.
fn threshold_of(s: Screen, phase: u32) -> u32
    requires { Admitted s × (phase < s.n) }
    ensures { result ≡ threshold_of s phase }
{
    let mut passed = 0;
    // `subscreen` is a number of the rule, no index.
    for subscreen in 0..s.k {
        let next = passed + (s.n + subscreen) / s.k;
        if phase < next {
            return (phase - passed + 1) * s.k - subscreen;
        }
        passed = next;
    }
    unreachable!()
}

// Writes the thresholds of the phases, one subscreen after the other.
fn rank_phases(s: Screen, table: &mut [u16])
    requires { Admitted s × (s.n ≤ length table.old) }
    ensures { table.new ≡ upto (threshold_of s) s.n ++ drop s.n table.old }
{
    let mut start = 0;
    // `split_at_mut` with the rest carried on was tried; its proof did not close, since nothing is known of the
    // parts that earlier turns wrote.
    for subscreen in 0..s.k {
        let size = (s.n + subscreen) / s.k;
        let next = start + size as usize;
        rank_subscreen(s.k, subscreen, &mut table[start..next]);
        start = next;
    }
}

// Writes the thresholds of a subscreen's cells: k, 2 k, .. for the first, k - 1, 2 k - 1, .. for the second.
fn rank_subscreen(k: u32, subscreen: u32, out: &mut [u16])
    requires { (subscreen < k) × (length out.old * k ≤ 65535) }
    ensures { out.new ≡ upto (λ q. (q + 1) * k - subscreen) (length out.old) }
{
    let mut threshold = k - subscreen;
    for place in out.iter_mut() {
        *place = threshold as u16;
        threshold += k;
    }
}

// The colorant of a cell: how many of the first seven levels its threshold, scaled as they are, is above.
#[tactic(auto, using(crate::proofs::ThresholdLaws::rank_added))]
pub fn colorant_of(levels: [u64; 8], bar: u64) -> u8
    ensures { result ≡ rank levels bar }
{
    above(&levels[..7], bar)
}

// How many levels a number is above. The tests are added up, of which the compiler makes code without
// branches; of `filter` and `count` it makes a loop that takes more than twice the time.
fn above(levels: &[u64], bar: u64) -> u8
    requires { length levels.now ≤ 7 }
    ensures { result ≡ sum_by (λ level. indicator (nat_lt level bar)) levels.now }
{
    levels.iter().map(|&level| u8::from(level < bar)).sum()
}
