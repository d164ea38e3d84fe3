// Colours: the counts of the colorants, and the colour that they give together.
ghost use Rattle.std.specs.Prelude.{◌≡◌, ◌<◌, length};
ghost use Rattle.predict.specs.Prediction.{prediction_of};
ghost use Rattle.predict.specs.Predicted.{triple_at};
ghost use Rattle.predict.specs.Numbered.{numbered_of};
ghost use Rattle.separation.specs.Weights.{inks_of};
ghost use Rattle.cavzemil.specs.Colours.{counts_answer, primaries_in, numbered_laid, colourless, predict_answer};

use crate::screens::Screen;
use crate::separations::{UNKNOWN, inks_of, separation_of};
use arith::{Refusal, number_of};
use predict::{PredictionError, Xyz};

// How many of a screen's cells each colorant gets, or the number of what refuses it.
#[repr(C)]
#[derive(Clone, Copy)]
pub struct Counts {
    pub refusal: u32,
    pub of: [u32; 8],
}

// The predicted X, Y and Z, or the number of what refuses the call and the colorant that it carries.
#[repr(C)]
#[derive(Clone, Copy)]
pub struct Prediction {
    pub refusal: u32,
    pub colorant: u32,
    pub x: f64,
    pub y: f64,
    pub z: f64,
}

// The quantised counts of the eight colorants for one ink triple.
#[tactic(auto, using(crate::proofs::AnswerLaws::counts_unknown, crate::proofs::AnswerLaws::counts_number, crate::proofs::AnswerLaws::counts_known), unfolding(arith::specs::Run::upto))]
#[unsafe(no_mangle)]
pub extern "C" fn cavzemil_counts_of(s: Screen, separation: u32, c: u8, m: u8, y: u8) -> Counts
    ensures { result ≡ counts_answer s separation (inks_of c m y) }
{
    let Some(sep) = separation_of(separation) else {
        return Counts {
            refusal: UNKNOWN,
            of: [0; 8],
        };
    };
    let counts = quantiser::counts(s.into(), sep, inks_of(c, m, y));
    Counts {
        refusal: number_of(counts),
        of: counts.unwrap_or([0; 8]),
    }
}

// The colour that a screen's cells give together for one ink triple. The primaries are 24 values, X, Y
// and Z of each colorant in turn. Of another number of values the screen is tested here, and otherwise by
// `predict`.
#[tactic(auto, using(crate::proofs::PredictionLaws::prediction_unknown, crate::proofs::PredictionLaws::prediction_screen, crate::proofs::PredictionLaws::prediction_length, crate::proofs::PredictionLaws::prediction_ruled))]
#[unsafe(no_mangle)]
pub extern "C" fn cavzemil_predict(
    s: Screen,
    separation: u32,
    c: u8,
    m: u8,
    y: u8,
    primaries: &[f64],
) -> Prediction
    ensures { result ≡ predict_answer s separation (inks_of c m y) primaries.now }
{
    let Some(sep) = separation_of(separation) else {
        return colourless(UNKNOWN, 0);
    };
    let given = screen::Screen::from(s);
    if primaries.len() != 24 {
        let refused = screen::check(given).err().unwrap_or(Refusal::InputLength);
        return colourless(refused.into(), 0);
    }
    let eight = primaries_in(primaries);
    numbered(predict::predict(given, sep, inks_of(c, m, y), eight))
}

// The eight primaries of 24 values.
fn primaries_in(values: &[f64]) -> [Xyz; 8]
    requires { length values.now ≡ 24 }
    ensures { result ≡ primaries_in values.now }
{
    // `array::from_fn` was tried; its proof did not close, since of the list that it makes too little is known.
    [
        primary_in(values, 0),
        primary_in(values, 1),
        primary_in(values, 2),
        primary_in(values, 3),
        primary_in(values, 4),
        primary_in(values, 5),
        primary_in(values, 6),
        primary_in(values, 7),
    ]
}

// The primary of colorant j.
fn primary_in(values: &[f64], j: usize) -> Xyz
    requires { (length values.now ≡ 24) × (j < 8) }
    ensures { result ≡ triple_at values.now j }
{
    let at = 3 * j;
    Xyz {
        x: values[at],
        y: values[at + 1],
        z: values[at + 2],
    }
}

// The library's answer in numbers.
fn numbered(answer: Result<Xyz, PredictionError>) -> Prediction
    ensures { result ≡ numbered_laid (numbered_of (prediction_of answer)) }
{
    match answer {
        Ok(Xyz { x, y, z }) => Prediction {
            refusal: 0,
            colorant: 0,
            x,
            y,
            z,
        },
        Err(PredictionError::Primary(colorant)) => colourless(Refusal::Primary.into(), colorant),
        Err(PredictionError::Screen(refusal)) => colourless(refusal.into(), 0),
    }
}

// A refusal, and the colorant that it carries, with no colour.
fn colourless(refusal: u32, colorant: u32) -> Prediction
    ensures { result ≡ colourless refusal colorant }
{
    Prediction {
        refusal,
        colorant,
        x: 0.0,
        y: 0.0,
        z: 0.0,
    }
}
