//! Once-only: a layer that lets each command of an origin through once, and answers a repetition as it did before.

ghost use Rattle.layers.specs.Once.{once_state, once_start, once_rule};
ghost use Rattle.layers.specs.Passing.{ActsOnce, SameAnswer};
ghost use Rattle.machine.specs.Denials.{told};
ghost use Rattle.std.specs.Prelude.{◌≡◌};

use command::{Command, Serial};
use machine::{Denial, Machine};

/// What is kept of an origin: its highest serial so far, and what that was answered.
#[derive(Clone, Copy, PartialEq, Eq, Debug)]
struct Kept {
    serial: Serial,
    answer: u16,
}

/// A machine that keeps, for origins 0 to 31, the highest serial and its answer; only higher serials go lower.
#[derive(PartialEq, Eq, Debug, Drop)]
pub struct OnceOnly<M> {
    kept: [Option<Kept>; 32],
    lower: M,
}

impl<M: Machine> OnceOnly<M> {
    /// This machine with once-only over it, which keeps nothing yet. Whatever commands it gets, each origin and serial
    /// acts at most once below, and a repeated highest serial gets the same answer.
    pub fn over(lower: M) -> OnceOnly<M>
        ensures start { once_state M.Machine.state result ≡ once_start (M.Machine.state lower) }
        ensures lower { result.lower ≡ lower }
        ensures once { ActsOnce M.Machine.rule }
        ensures again { SameAnswer M.Machine.rule }
    {
        OnceOnly {
            kept: [None; 32],
            lower,
        }
    }

    /// The machine below.
    // As in the other layer: no code takes either of them, so a trait for the two would have no caller.
    pub fn lower(&self) -> &M
        ensures { result.now ≡ self.now.lower }
    {
        &self.lower
    }

    // Lets a command through whose serial is higher than the kept one, and keeps its answer.
    fn pass(&mut self, command: &Command) -> Result<u16, Denial>
        ensures next { once_state M.Machine.state self.new
            ≡ (once_rule M.Machine.rule (once_state M.Machine.state self.old) command.now).0 }
        ensures answer { told result
            ≡ (once_rule M.Machine.rule (once_state M.Machine.state self.old) command.now).1 }
    {
        let origin = command.origin as usize;
        match *self.kept.get(origin).ok_or(Denial::UnknownOrigin)? {
            _ if command.serial == 0 => Err(Denial::OldSerial),
            Some(kept) if command.serial < kept.serial => Err(Denial::OldSerial),
            Some(kept) if command.serial == kept.serial => Ok(kept.answer),
            _ => {
                let answer = self.lower.apply(command);
                self.kept[origin] = Some(Kept {
                    serial: command.serial,
                    answer,
                });
                Ok(answer)
            },
        }
    }
}

impl<M: Machine> Machine for OnceOnly<M> {
    ghost state = { once_state M.Machine.state };

    ghost start = { once_start M.Machine.start };

    ghost rule = { once_rule M.Machine.rule };

    fn apply(&mut self, command: &Command) -> u16 {
        self.pass(command).unwrap_or_else(Denial::answer)
    }

    fn reset(&mut self) {
        self.kept = [None; 32];
        self.lower.reset();
    }
}
