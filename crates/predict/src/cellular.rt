// Cellular prediction: the mean of the primaries of eight sets of colorants (rules 16.1 to 16.8).
ghost use Rattle.std.specs.Prelude.{◌≡◌, ℕ, ◌≤◌, ◌<◌, get_or};
ghost use Rattle.arith.specs.Run.{upto};
ghost use Rattle.predict.specs.declared.cellular.CellularError.TheVariants as Error;
ghost use Rattle.predict.specs.CellularPrediction.{cellular_of};
ghost use Rattle.predict.specs.Predicted.{primary, found_below};
ghost use Rattle.predict.specs.Cellular.{record_of, falling_count, weight_at, set_at, cellular_mean, first_bad_set, cellular, numbered_of, ruled};

use crate::order::Falling;
use crate::{Xyz, ZERO, is_admitted, mean};
use arith::Refusal;
use screen::Screen;
use separation::{Inks, Separation};
use std::array;

// Why no colour is predicted: what refuses the call, or the lowest set that has a value beyond its limits.
#[derive(Clone, Copy, Debug, PartialEq, Eq, Hash)]
pub enum CellularError {
    Refused(Refusal),
    Set(u32),
}

impl From<Refusal> for CellularError {
    ghost from_gives = { λ refusal error. error ≡ Error.Refused refusal };

    fn from(refusal: Refusal) -> CellularError {
        CellularError::Refused(refusal)
    }
}

// X, Y and Z of each of the 255 sets.
const VALUES: usize = 765;

// The colour that a screen's cells give together for one ink triple, by the primaries of sets of colorants:
// three values a set, in the order of the sets' numbers.
pub fn predict_cellular(
    s: Screen,
    sep: Separation,
    inks: Inks,
    primaries: &[f64],
) -> Result<Xyz, CellularError>
    ensures answer { cellular_of result ≡ cellular s sep inks primaries.now }
    ensures numbered { numbered_of (cellular_of result) ≡ ruled s sep inks primaries.now }
{
    screen::check(s)?;
    let sets = primaries
        .as_array::<VALUES>()
        .ok_or(Refusal::PrimariesLength)?;
    if let Some(set) = first_bad_set(sets) {
        return Err(CellularError::Set(set));
    }
    Ok(mean_of_sets(quantiser::counted(s, sep, inks), s.n, sets))
}

// The lowest set with a value that is not admitted.
fn first_bad_set(sets: &[f64; VALUES]) -> Option<u32>
    ensures { result ≡ found_below 256 (first_bad_set sets.now) }
{
    (1..256).find(|set| !is_admitted(record_of(sets, *set as usize)))
}

// The mean of the sets' records by their weights.
fn mean_of_sets(counts: [u32; 8], n: u32, sets: &[f64; VALUES]) -> Xyz
    requires { (j : ℕ) → j < 8 → get_or counts j 0 ≤ 4096 }
    ensures { result ≡ cellular_mean (λ j. get_or counts j 0) n sets.now }
{
    let falling = Falling::of(counts);
    mean(falling.weights(), n, falling.records(sets))
}

impl Falling {
    // The count at a place of the order; that of the ninth is 0.
    #[tactic(auto, using(crate::proofs::CellularLaws::count_listed, crate::proofs::CellularLaws::listed_below, crate::proofs::CellularLaws::falling_ninth))]
    fn count_at(&self, k: usize) -> u32
        ensures { result ≡ falling_count (λ j. get_or self.now.counts j 0) k }
    {
        if k < 8 { self.counts[self.order[k]] } else { 0 }
    }

    // The weight of the set at a place.
    #[tactic(auto, using(crate::proofs::CellularLaws::weight_next, crate::proofs::CellularLaws::weight_fits, crate::proofs::CellularLaws::falls_next))]
    fn weight_at(&self, k: usize) -> u32
        requires { k < 8 }
        ensures { result ≡ weight_at (λ j. get_or self.now.counts j 0) k }
    {
        (k as u32 + 1) * (self.count_at(k) - self.count_at(k + 1))
    }

    // The weights of the eight sets.
    fn weights(&self) -> [u32; 8]
        ensures { result ≡ upto (weight_at (λ j. get_or self.now.counts j 0)) 8 }
    {
        array::from_fn(|k| self.weight_at(k))
    }

    // The records of the eight sets: each has one colorant more than the one before.
    fn records(&self, sets: &[f64; VALUES]) -> [Xyz; 8]
        ensures { (k : ℕ) → k < 8 → primary result k ≡ record_of sets.now (set_at (λ j. get_or self.now.counts j 0) k) }
    {
        let mut records = [ZERO; 8];
        let mut set = 0;
        for (k, colorant) in self.order.iter().enumerate() {
            set += 1 << *colorant;
            records[k] = record_of(sets, set);
        }
        records
    }
}

// The record of a set.
fn record_of(sets: &[f64; VALUES], set: usize) -> Xyz
    requires { (1 ≤ set) × (set ≤ 255) }
    ensures { result ≡ record_of sets.now set }
{
    let at = 3 * (set - 1);
    Xyz {
        x: sets[at],
        y: sets[at + 1],
        z: sets[at + 2],
    }
}
