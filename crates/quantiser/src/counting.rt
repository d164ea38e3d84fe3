// The quantised counts of a colour.
ghost use Rattle.std.specs.Prelude.{◌≡◌, ℕ, ◌-◌, ◌*◌, ◌/◌, ◌≤◌, ◌<◌, get_or, IfOk};
ghost use Rattle.arith.specs.Refusal.{number_of};
ghost use Rattle.arith.specs.Run.{upto};
ghost use Rattle.arith.specs.Rounding.{before};
ghost use Rattle.separation.specs.Weights.{scale_of};
ghost use Rattle.quantiser.specs.Running.{count, counts_of};

use crate::cells::levels;
use arith::Refusal;
use screen::Screen;
use separation::{Inks, Separation};

// The quantised counts of the eight colorants for one ink triple, or what refuses the screen.
#[tactic(auto, using(crate::proofs::LevelLaws::counts_whole), unfolding(crate::specs::Running::counts_of))]
pub fn counts(s: Screen, sep: Separation, inks: Inks) -> Result<[u32; 8], Refusal>
    ensures refused { number_of result ≡ (counts_of s sep inks).refusal }
    ensures counts { IfOk result (λ of. of ≡ upto (count s sep inks) 8) }
    ensures laid { IfOk result (λ of. of ≡ (counts_of s sep inks).of) }
{
    screen::check(s)?;
    Ok(counted(s, sep, inks))
}

// The counts alone, for a caller that has tested the screen.
pub fn counted(s: Screen, sep: Separation, inks: Inks) -> [u32; 8]
    ensures { result ≡ upto (count s sep inks) 8 }
{
    differences(levels(s.n, sep, inks), sep)
}

// What the running sums of eight levels rise by, from each to the next.
fn differences(levels: [u64; 8], sep: Separation) -> [u32; 8]
    requires { ((j : ℕ) → j < 8 → get_or levels j 0 / (2 * scale_of sep) ≤ 4294967295) × ((j : ℕ) → j < 8 → before (λ i. get_or levels i 0 / (2 * scale_of sep)) j ≤ get_or levels j 0 / (2 * scale_of sep)) }
    ensures { result ≡ upto (λ j. get_or levels j 0 / (2 * scale_of sep) - before (λ i. get_or levels i 0 / (2 * scale_of sep)) j) 8 }
{
    let mut last = 0;
    levels.map(
        |level|
            requires { (last ≤ level / (2 * scale_of sep)) × (level / (2 * scale_of sep) ≤ 4294967295) }
        {
            let sum = running_sum(level, sep);
            let rise = (sum - last) as u32;
            last = sum;
            rise
        },
    )
}

// The running sum of a level: the level divided by 2 * D, which for Demichel is 2 * 255 * 255 * 255. Each
// separation divides by a number of its own, since by a constant the compiler divides without a division.
fn running_sum(level: u64, sep: Separation) -> u64
    ensures { result ≡ level / (2 * scale_of sep) }
{
    match sep {
        Separation::Demichel => level / 33162750,
        Separation::Kueppers => level / 510,
    }
}
