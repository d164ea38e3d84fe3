// What every crate above shares: whole-number arithmetic, the refusals, and the number of the rules in force.
// What the crates above take from here besides are the definitions of specs/ and the laws of proofs/.
#![tactic(auto)]

mod carrying;
mod refusals;

ghost use Rattle.std.specs.Prelude.{◌≡◌, eqb};
ghost use Rattle.arith.specs.Gcd.{gcd_of};
ghost use Rattle.arith.specs.Rules.{rules_in_force};

pub use carrying::carry;
pub use refusals::{Refusal, number_of};

// The greatest common divisor of a and b by Euclid's rule: each call falls back on the remainder,
// which is smaller than b.
pub fn gcd(a: u32, b: u32) -> u32
    ensures { result ≡ gcd_of a b }
{
    if b == 0 { a } else { gcd(b, a % b) }
}

// Whether a and b have no common divisor but 1. Euclid's rule ends as soon as a remainder is 1, one step
// before it would find the divisor.
pub fn coprime(a: u32, b: u32) -> bool
    ensures { result ≡ eqb (gcd_of a b) 1 }
{
    if b == 0 {
        return a == 1;
    }
    if b == 1 {
        return true;
    }
    coprime(b, a % b)
}

// The number of the rules in force: that of the last change request that they have in them, 0 where they
// have none.
pub fn rules_in_force() -> u32
    ensures { result ≡ rules_in_force }
{
    6
}
