//! What a verb's number stands for.

ghost use Rattle.command.specs.Verbs.{TellsVerb};

use thiserror::Error;

/// What kind of change a verb's number stands for: 0, 1, 2, and 16 to 255 for those of the machine.
#[derive(Clone, Copy, PartialEq, Eq, Debug)]
pub enum Verb {
    Noop,
    Add,
    Remove,
    Change,
}

/// A number that stands for no kind of change: 3 to 15.
#[derive(Clone, Copy, PartialEq, Eq, Hash, Debug, Error)]
#[error("no kind of change has the verb {0}")]
pub struct UnknownVerb(pub u8);

impl TryFrom<u8> for Verb {
    type Error = UnknownVerb;

    ghost try_from_gives = { TellsVerb };

    fn try_from(number: u8) -> Result<Verb, UnknownVerb> {
        match number {
            0 => Ok(Verb::Noop),
            1 => Ok(Verb::Add),
            2 => Ok(Verb::Remove),
            16..=255 => Ok(Verb::Change),
            _ => Err(UnknownVerb(number)),
        }
    }
}
