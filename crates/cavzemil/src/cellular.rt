// Cellular prediction: the colour by the primaries of sets of colorants.
ghost use Rattle.std.specs.Prelude.{◌≡◌};
ghost use Rattle.predict.specs.CellularPrediction.{cellular_of};
ghost use Rattle.predict.specs.Cellular.{numbered_of};
ghost use Rattle.separation.specs.Weights.{inks_of};
ghost use Rattle.cavzemil.specs.Cellular.{cellular_laid, uncoloured, cellular_answer};

use crate::screens::Screen;
use crate::separations::{UNKNOWN, inks_of, separation_of};
use arith::Refusal;
use predict::{CellularError, Xyz};

// The predicted X, Y and Z, or the number of what refuses the call and the set that it carries.
#[repr(C)]
#[derive(Clone, Copy)]
pub struct Cellular {
    pub refusal: u32,
    pub set: u32,
    pub x: f64,
    pub y: f64,
    pub z: f64,
}

// The colour that a screen's cells give together for one ink triple, by the primaries of sets of colorants:
// 765 values, X, Y and Z of each of the 255 sets in turn.
#[tactic(auto, using(crate::proofs::CellularLaws::cellular_unknown, crate::proofs::CellularLaws::cellular_known))]
#[unsafe(no_mangle)]
pub extern "C" fn cavzemil_predict_cellular(
    s: Screen,
    separation: u32,
    c: u8,
    m: u8,
    y: u8,
    primaries: &[f64],
) -> Cellular
    ensures { result ≡ cellular_answer s separation (inks_of c m y) primaries.now }
{
    let Some(sep) = separation_of(separation) else {
        return uncoloured(UNKNOWN, 0);
    };
    laid(predict::predict_cellular(s.into(), sep, inks_of(c, m, y), primaries))
}

// The library's answer in numbers.
fn laid(answer: Result<Xyz, CellularError>) -> Cellular
    ensures { result ≡ cellular_laid (numbered_of (cellular_of answer)) }
{
    match answer {
        Ok(Xyz { x, y, z }) => Cellular {
            refusal: 0,
            set: 0,
            x,
            y,
            z,
        },
        Err(CellularError::Set(set)) => uncoloured(Refusal::Primary.into(), set),
        Err(CellularError::Refused(refusal)) => uncoloured(refusal.into(), 0),
    }
}

// A refusal, and the set that it carries, with no colour.
fn uncoloured(refusal: u32, set: u32) -> Cellular
    ensures { result ≡ uncoloured refusal set }
{
    Cellular {
        refusal,
        set,
        x: 0.0,
        y: 0.0,
        z: 0.0,
    }
}
