//! Machines: what a list of commands leads to. Every machine is a state with a start and a rule.

#![tactic(auto)]

mod denials;
mod ledgers;
mod pools;

ghost use Rattle.std.specs.Prelude.{◌≡◌, ℕ, List};
ghost use Rattle.command.specs.declared.Command.{Command};
ghost use Rattle.machine.specs.Rules.{after, Appended};

use command::Command;
pub use denials::Denial;
pub use ledgers::Ledger;
pub use pools::Pool;

/// A state, a list of numbers, with a start and a rule. The rule fixes the next state and the answer from the state
/// and the command alone; no command is refused.
pub trait Machine {
    ghost state: { Self → List ℕ };

    ghost start: { List ℕ };

    ghost rule: { List ℕ → Command → List ℕ × ℕ };

    /// Goes to the next state by the rule, and gives the rule's answer.
    fn apply(&mut self, command: &Command) -> u16
        ensures next { state self.new ≡ (rule (state self.old) command.now).0 }
        ensures answer { result ≡ (rule (state self.old) command.now).1 };

    /// Brings back the start.
    fn reset(&mut self)
        ensures { state self.new ≡ start };
}

/// Applies the commands in their order. After two lists one after the other the state is that after both as one list.
pub fn apply_all<M: Machine>(machine: &mut M, commands: &[Command])
    ensures leads { M.Machine.state machine.new
        ≡ after M.Machine.rule (M.Machine.state machine.old) commands.now }
    ensures appended { Appended M.Machine.rule }
{
    for command in commands {
        let _ = machine.apply(command);
    }
}

#[cfg(test)]
mod tests {
    use crate::{Denial, Ledger, Machine, Pool};
    use command::Command;
    use std::test::Fail;

    fn change(verb: u8, a: u16, b: u16) -> Command {
        Command {
            verb,
            a,
            b,
            ..Command::NOOP
        }
    }

    #[test]
    fn a_pool_answers_the_old_weight(rt: HostRuntime) {
        let mut pool = Pool::new();
        assert_eq!(rt; pool.apply(&change(16, 5, 100)), 0);
        assert_eq!(rt; pool.apply(&change(16, 5, 40)), 100);
        assert_eq!(rt; pool.weight(5), 40);
        assert_eq!(rt; pool.apply(&change(17, 5, 0)), 40);
        assert_eq!(rt; pool.apply(&change(16, 5, 1_001)), 65_535);
        assert_eq!(rt; pool.apply(&change(16, 64, 1)), 65_535);
    }

    #[test]
    fn a_denial_tells_why(rt: HostRuntime) -> Result<(), Fail> {
        let told = format!(in rt.alloc(); "{}", Denial::Frozen)?;
        assert_eq!(rt; told.as_str(), "the machine is frozen");
        Ok(())
    }

    #[test]
    fn a_new_machine_is_the_default(rt: HostRuntime) {
        assert_eq!(rt; Pool::default(), Pool::new());
        assert_eq!(rt; Ledger::default(), Ledger::new());
    }

    #[test]
    fn a_ledger_shares_512_addresses(rt: HostRuntime) {
        let mut ledger = Ledger::new();
        assert_eq!(rt; ledger.apply(&change(16, 1, 512)), 512);
        assert_eq!(rt; ledger.apply(&change(16, 2, 1)), 65_535);
        assert_eq!(rt; ledger.apply(&change(17, 1, 12)), 500);
        assert_eq!(rt; ledger.holding(1), 500);
        assert_eq!(rt; ledger.free(), 12);
    }
}
