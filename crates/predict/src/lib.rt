// Predicted colour: the mean of the primaries over a screen's cells (rules 9.1 to 9.5). Cellular prediction
// (rules 16.1 to 16.8) stands in files of its own, and takes the limits of a value and the mean from here.
#![tactic(auto)]

mod cellular;
mod order;

ghost use Rattle.std.specs.Prelude.{◌≡◌, get_or};
ghost use Rattle.predict.specs.declared.PredictionError.TheVariants as Error;
ghost use Rattle.predict.specs.Prediction.{prediction_of};
ghost use Rattle.predict.specs.Predicted.{primary, within, admitted, first_bad, found_below, more, totals, mean_of, predicted};
ghost use Rattle.predict.specs.Numbered.{numbered_of, ruled};

use arith::Refusal;
pub use cellular::{CellularError, predict_cellular};
use screen::Screen;
use separation::{Inks, Separation};

// A colour's X, Y and Z: a primary, a running sum or a mean.
#[derive(Clone, Copy)]
pub struct Xyz {
    pub x: f64,
    pub y: f64,
    pub z: f64,
}

const ZERO: Xyz = Xyz {
    x: 0.0,
    y: 0.0,
    z: 0.0,
};

// Why no colour is predicted: what refuses the screen, or the first colorant that has a value beyond its
// limits.
#[derive(Clone, Copy, Debug, PartialEq, Eq, Hash)]
pub enum PredictionError {
    Screen(Refusal),
    Primary(u32),
}

impl From<Refusal> for PredictionError {
    ghost from_gives = { λ refusal error. error ≡ Error.Screen refusal };

    fn from(refusal: Refusal) -> PredictionError {
        PredictionError::Screen(refusal)
    }
}

// The colour that a screen's cells give together for one ink triple, each colorant being as its primary.
pub fn predict(
    s: Screen,
    sep: Separation,
    inks: Inks,
    primaries: [Xyz; 8],
) -> Result<Xyz, PredictionError>
    ensures answer { prediction_of result ≡ predicted s sep inks primaries }
    ensures numbered { numbered_of (prediction_of result) ≡ ruled s sep inks primaries }
{
    screen::check(s)?;
    if let Some(colorant) = first_bad(primaries) {
        return Err(PredictionError::Primary(colorant));
    }
    Ok(mean(quantiser::counted(s, sep, inks), s.n, primaries))
}

// The first colorant with a value that is not admitted.
fn first_bad(primaries: [Xyz; 8]) -> Option<u32>
    ensures { result ≡ found_below 8 (first_bad primaries) }
{
    primaries
        .iter()
        .position(|p| !is_admitted(*p))
        .map(|colorant| colorant as u32)
}

// Whether all three values of a primary are admitted.
#[tactic(auto, unfolding(crate::specs::Predicted::admitted))]
fn is_admitted(p: Xyz) -> bool
    ensures { result ≡ admitted p }
{
    in_range(p.x) && in_range(p.y) && in_range(p.z)
}

// Whether a value lies from 0 to 200; a NaN does not.
fn in_range(v: f64) -> bool
    ensures { result ≡ within v }
{
    (0.0..=200.0).contains(&v)
}

// The sum of eight records, each so many times, divided by the number of cells.
fn mean(times: [u32; 8], n: u32, records: [Xyz; 8]) -> Xyz
    ensures { result ≡ mean_of (λ j. get_or times j 0) n (primary records) }
{
    let sum = total(times, records);
    let cells = f64::from(n);
    Xyz {
        x: sum.x / cells,
        y: sum.y / cells,
        z: sum.z / cells,
    }
}

// The sum of eight records, in order, each so many times.
fn total(times: [u32; 8], records: [Xyz; 8]) -> Xyz
    ensures { result ≡ totals 8 (λ j. get_or times j 0) (primary records) }
{
    times
        .iter()
        .zip(&records)
        .fold(ZERO, |sum, (count, record)| added(sum, *count, *record))
}

// A sum with a record added so many times.
fn added(sum: Xyz, count: u32, p: Xyz) -> Xyz
    ensures { result ≡ record { x = more sum.x count p.x; y = more sum.y count p.y; z = more sum.z count p.z } }
{
    let times = f64::from(count);
    Xyz {
        x: sum.x + times * p.x,
        y: sum.y + times * p.y,
        z: sum.z + times * p.z,
    }
}
