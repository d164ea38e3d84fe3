// The ink bill: what a job costs.
ghost use Rattle.std.specs.Prelude.{◌≡◌};
ghost use Rattle.bill.specs.Charges.{charged};
ghost use Rattle.cavzemil.specs.Bills.{charge_laid};

use arith::number_of;

// Cents for a million cells, by colorant.
#[repr(C)]
#[derive(Clone, Copy)]
pub struct Prices {
    pub of: [u32; 8],
}

// A job's charge in cents, or the number of what refuses it.
#[repr(C)]
#[derive(Clone, Copy)]
pub struct Charge {
    pub refusal: u32,
    pub cents: u64,
}

// What the cells of a job cost. The run has the tallies of one window after the other, eight each.
#[tactic(auto, using(crate::proofs::AnswerLaws::charge_cents))]
#[unsafe(no_mangle)]
pub extern "C" fn cavzemil_charge_of(prices: Prices, tallies: &[u64]) -> Charge
    ensures { result ≡ charge_laid (charged prices.of tallies.now) }
{
    let charge = bill::charge(prices.of, tallies);
    Charge {
        refusal: number_of(charge),
        cents: charge.unwrap_or(0),
    }
}
