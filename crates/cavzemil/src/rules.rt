// Which rules the library follows.
ghost use Rattle.std.specs.Prelude.{◌≡◌};
ghost use Rattle.arith.specs.Rules.{rules_in_force};

// The number of the rules in force, by which two houses know that they follow the same.
#[unsafe(no_mangle)]
pub extern "C" fn cavzemil_rules() -> u32
    ensures { result ≡ rules_in_force }
{
    arith::rules_in_force()
}
