//! Freeze: a layer that can keep every command from the machine below.

ghost use Rattle.layers.specs.Freezing.{freeze_state, freeze_start, freeze_rule, FrozenBelow};
ghost use Rattle.std.specs.Prelude.{◌≡◌};

use command::Command;
use machine::{Denial, Machine};

/// A machine that can be frozen: till it is thawed no command reaches the machine below.
#[derive(PartialEq, Eq, Debug, Drop)]
pub struct Freeze<M> {
    // A bool beside the machine and no Option of it: the machine below counts in both states.
    frozen: bool,
    lower: M,
}

// The verbs of this layer, whatever the other fields of the command are: numbers with names, since a command may hold
// any verb, and all others are for the machine below.
const FREEZE: u8 = 48;

const THAW: u8 = 49;

impl<M: Machine> Freeze<M> {
    /// This machine with freeze over it, not frozen. While it is frozen, nothing below changes.
    pub fn over(lower: M) -> Freeze<M>
        ensures start { freeze_state M.Machine.state result ≡ freeze_start (M.Machine.state lower) }
        ensures lower { result.lower ≡ lower }
        ensures still { FrozenBelow M.Machine.rule }
    {
        Freeze {
            frozen: false,
            lower,
        }
    }

    /// The machine below.
    // As in the other layer: no code takes either of them, so a trait for the two would have no caller.
    pub fn lower(&self) -> &M
        ensures { result.now ≡ self.now.lower }
    {
        &self.lower
    }
}

impl<M: Machine> Machine for Freeze<M> {
    ghost state = { freeze_state M.Machine.state };

    ghost start = { freeze_start M.Machine.start };

    ghost rule = { freeze_rule M.Machine.rule };

    fn apply(&mut self, command: &Command) -> u16 {
        match command.verb {
            FREEZE => {
                self.frozen = true;
                0
            },
            THAW => {
                self.frozen = false;
                0
            },
            _ if self.frozen => Denial::Frozen.answer(),
            _ => self.lower.apply(command),
        }
    }

    fn reset(&mut self) {
        self.frozen = false;
        self.lower.reset();
    }
}
