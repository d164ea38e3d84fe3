// Plates: a window's cells packed into eight planes of bits, one for each colorant, and unpacked again
// (rules 8.1 to 8.8). A set bit means that the plane's ink prints at that pixel.
#![tactic(auto)]

mod packing;
mod unpacking;
mod window;

ghost use Rattle.std.specs.Prelude.{◌≡◌};
ghost use Rattle.plates.specs.Masks.{mask};
ghost use Rattle.plates.specs.Refusals.{lengths_refusal};
ghost use Rattle.arith.specs.Refusal.{number_of};

use arith::Refusal;
pub use packing::pack;
pub use unpacking::unpack;

// The bit mask of pixel x of a row.
fn mask_of(x: usize) -> u8
    ensures { result ≡ mask x }
{
    128 >> (x % 8)
}

// Refused where the input's length is not the one stated, and then where the output's is not.
fn check_lengths(input: usize, stated: usize, output: usize, due: usize) -> Result<(), Refusal>
    ensures { number_of result ≡ lengths_refusal input stated output due }
{
    if input != stated {
        return Err(Refusal::InputLength);
    }
    if output != due {
        return Err(Refusal::OutputLength);
    }
    Ok(())
}
