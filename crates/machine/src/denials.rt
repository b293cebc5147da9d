//! The answers that say why a machine did nothing.

ghost use Rattle.machine.specs.Denials.{number};
ghost use Rattle.std.specs.Prelude.{◌≡◌};

use thiserror::Error;

/// Why a command did nothing: each has a number of its own at the end of the answers.
#[derive(Clone, Copy, PartialEq, Eq, Hash, Debug, Error)]
pub enum Denial {
    /// The machine is frozen.
    #[error("the machine is frozen")]
    Frozen = 65_532,
    /// No memory is kept for the command's origin.
    #[error("no memory is kept for this origin")]
    UnknownOrigin = 65_533,
    /// The command's serial is 0, or lower than one that its origin used before.
    #[error("the serial is 0 or lower than one used before")]
    OldSerial = 65_534,
    /// The machine has no such change, or cannot make it.
    #[error("there is no such change, or it cannot be made")]
    NoEffect = 65_535,
}

impl Denial {
    /// The number that stands for it among the answers.
    pub fn answer(self) -> u16
        ensures { result ≡ number self }
    {
        self as u16
    }
}
