//! Worked examples of the rules, proved together about the definitions that the contracts use.

#![tactic(auto)]

ghost use Rattle.examples.specs.Examples.{Examples};
ghost use Rattle.std.specs.Prelude.{◌≡◌};

/// How many examples there are; its contract is that all of them hold.
pub fn examples_hold() -> u8
    ensures count { result ≡ 7 }
    ensures hold { Examples }
{
    7
}
