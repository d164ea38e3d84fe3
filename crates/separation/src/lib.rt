// Separations: how much of each of the eight colorants three ink values call for (rules 4.1 to 4.5).
#![tactic(auto)]

ghost use Rattle.std.specs.Prelude.{◌≡◌, cond, ◌-◌, ◌≤◌};
ghost use Rattle.separation.specs.Numbers.{Numbers};
ghost use Rattle.separation.specs.Weights.{full, demichel_weight, kueppers_weight, weights_of, scale_of};

use std::array;

// How ink values become weights.
#[derive(Clone, Copy, Debug, PartialEq, Eq, Hash)]
pub enum Separation {
    Demichel,
    Kueppers,
}

// A number that no separation has.
#[derive(Clone, Copy, Debug, PartialEq, Eq, Hash)]
pub struct UnknownSeparation(pub u32);

// The separation that a number stands for (rule 14.3).
impl TryFrom<u32> for Separation {
    type Error = UnknownSeparation;

    ghost try_from_gives = { Numbers };

    fn try_from(number: u32) -> Result<Separation, UnknownSeparation> {
        match number {
            0 => Ok(Separation::Demichel),
            1 => Ok(Separation::Kueppers),
            _ => Err(UnknownSeparation(number)),
        }
    }
}

// The values of the inks cyan, magenta and yellow, 255 being full.
#[derive(Clone, Copy, Debug, PartialEq, Eq, Hash)]
pub struct Inks {
    pub c: u8,
    pub m: u8,
    pub y: u8,
}

// Which of the inks c, m and y each colorant holds.
const HOLDS: [[bool; 3]; 8] = [
    [true, false, false],
    [false, true, false],
    [false, false, true],
    [true, true, false],
    [true, false, true],
    [false, true, true],
    [true, true, true],
    [false, false, false],
];

// The value of a full ink.
const FULL: u64 = 255;

// The weights of the eight colorants, in the order of their numbers.
#[tactic(auto, unfolding(crate::specs::Weights::weights_of, crate::specs::Weights::weight, arith::specs::Run::upto))]
pub fn weights(sep: Separation, inks: Inks) -> [u64; 8]
    ensures { result ≡ weights_of sep inks }
{
    match sep {
        Separation::Demichel => array::from_fn(|j| demichel(HOLDS[j], inks)),
        Separation::Kueppers => array::from_fn(|j| kueppers(HOLDS[j], inks)),
    }
}

// The scale D, the sum of the eight weights.
#[tactic(auto, unfolding(crate::specs::Weights::scale_of))]
pub fn scale(sep: Separation) -> u64
    ensures { result ≡ scale_of sep }
{
    match sep {
        Separation::Demichel => FULL * FULL * FULL,
        Separation::Kueppers => FULL,
    }
}

// The product of three factors, one for each ink.
#[tactic(auto, unfolding(crate::specs::Weights::demichel_weight))]
fn demichel(held: [bool; 3], inks: Inks) -> u64
    ensures { result ≡ demichel_weight held inks }
{
    factor(held[0], inks.c) * (factor(held[1], inks.m) * factor(held[2], inks.y))
}

// The least value held less the greatest not held; 0 where that is the larger.
#[tactic(auto, unfolding(crate::specs::Weights::kueppers_weight))]
fn kueppers(held: [bool; 3], inks: Inks) -> u64
    ensures { result ≡ kueppers_weight held inks }
{
    let low = if_held(held[0], inks.c).min(if_held(held[1], inks.m).min(if_held(held[2], inks.y)));
    let high = if_free(held[0], inks.c).max(if_free(held[1], inks.m).max(if_free(held[2], inks.y)));
    low.saturating_sub(high)
}

// An ink's factor in a Demichel weight.
fn factor(held: bool, value: u8) -> u64
    ensures { (result ≡ cond held value (full - value)) × (result ≤ 255) }
{
    if held {
        u64::from(value)
    } else {
        FULL - u64::from(value)
    }
}

// The value of an ink that is held, and full for one that is not.
fn if_held(held: bool, value: u8) -> u64
    ensures { result ≡ cond held value full }
{
    if held { u64::from(value) } else { FULL }
}

// The value of an ink that is not held, and 0 for one that is.
fn if_free(held: bool, value: u8) -> u64
    ensures { result ≡ cond held 0 value }
{
    if held { 0 } else { u64::from(value) }
}
