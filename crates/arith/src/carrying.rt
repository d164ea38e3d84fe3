// Sums by a modulus, without a division.
ghost use Rattle.std.specs.Prelude.{◌≡◌, ◌+◌, ◌%◌, ◌≤◌, ◌<◌};
ghost use Rattle.arith.specs.Carry.{carried};

// p + by by the modulus n, where p is below n and `by` is at most n: n is taken off where it is reached. Other
// numbers are not tested; what they give is what 32 bits hold of the same steps.
#[tactic(auto, unfolding(crate::specs::Carry::carried))]
pub fn carry(p: u32, by: u32, n: u32) -> u32
    ensures modulo { p < n → by ≤ n → (result ≡ (p + by) % n) × (result < n) }
    ensures bits { result ≡ carried p by n }
{
    let left = n.wrapping_sub(by);
    if p < left {
        p.wrapping_add(by)
    } else {
        p.wrapping_sub(left)
    }
}
