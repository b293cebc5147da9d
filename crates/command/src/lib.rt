//! Commands of the list of changes, sets of directors, and the chain of directors that counts for each slot.

#![tactic(auto)]

mod chains;
mod enough;
mod membership;
mod serials;
mod sets;
mod verbs;

ghost use Rattle.command.specs.Commands.{well_formed};
ghost use Rattle.std.specs.Prelude.{◌≡◌};

pub use chains::{Chain, InvalidChain};
pub use serials::{SERIAL_BYTES, Serial};
pub use sets::DirectorSet;
pub use verbs::{UnknownVerb, Verb};

/// One change of the list, with any content: `is_well_formed` tells whether it may stand in a list.
// Its verb stays a number, since a command may come with any content; `Verb` tells what the number stands for.
#[derive(Clone, Copy, PartialEq, Eq, Debug)]
pub struct Command {
    pub verb: u8,
    pub origin: u16,
    pub serial: Serial,
    pub a: u16,
    pub b: u16,
}

impl Command {
    /// The command that changes nothing.
    pub const NOOP: Command = Command {
        verb: 0,
        origin: 0,
        serial: 0,
        a: 0,
        b: 0,
    };

    /// Whether the fields fit the verb: what a verb does not use is 0, and a director's number is at most 31.
    pub fn is_well_formed(&self) -> bool
        ensures { result ≡ well_formed self.now }
    {
        let untold = self.origin == 0 && self.serial == 0 && self.b == 0;
        match Verb::try_from(self.verb) {
            Ok(Verb::Noop) => untold && self.a == 0,
            Ok(Verb::Add | Verb::Remove) => untold && self.a <= 31,
            Ok(Verb::Change) => true,
            Err(UnknownVerb(_)) => false,
        }
    }
}
