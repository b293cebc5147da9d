//! Why a text is no list.

ghost use Rattle.listing.specs.declared.faults.Fault.TheVariants.{InvalidChain, Memory};
ghost use Rattle.listing.specs.Answers.{fault_number, fault_text};
ghost use Rattle.std.specs.Prelude.{◌≡◌, Some};

use std::alloc::{AllocError, AllocFailed};
use std::error::Error;
use std::fmt;

/// Why a text is no list, or was not read or written; lines count from 1.
#[derive(Clone, Copy, PartialEq, Eq, Hash, Debug)]
pub enum Fault {
    /// The first line can be read, and is no chain of 1 to 7 different directors.
    InvalidChain,
    /// This line can be read, and its command is not well formed.
    IllFormed { line: usize },
    /// This line cannot be read.
    Unreadable { line: usize },
    /// No memory was left.
    Memory,
}

impl Fault {
    /// The refusal's number, where this is a refusal.
    // A match and no discriminants: a variant with a value can have none.
    pub fn number(self) -> Option<u8>
        ensures { result ≡ fault_number self }
    {
        match self {
            Fault::InvalidChain => Some(11),
            Fault::IllFormed { .. } => Some(5),
            Fault::Unreadable { .. } | Fault::Memory => None,
        }
    }
}

// Written out and not derived: clauses name the words, and the fault that a `?` makes.
impl fmt::Display for Fault {
    ghost output = { λ fault. Some (fault_text fault) };

    fn fmt<W: fmt::Write>(&self, f: &mut fmt::Formatter<W>) -> fmt::Result {
        match self {
            Fault::InvalidChain => {
                f.write_str(
                    "refused 11 at line 1: a chain is 1 to 7 different directors from 0 to 31",
                )
            }
            Fault::IllFormed { line } => {
                write!(
                    f,
                    "refused 5 at line {line}: the command is not well formed"
                )
            }
            Fault::Unreadable { line } => {
                write!(
                    f,
                    "line {line} cannot be read: see docs/list-format.md for the form of a list"
                )
            }
            Fault::Memory => f.write_str("no memory is left"),
        }
    }
}

impl Error for Fault {}

impl From<AllocError> for Fault {
    ghost from_gives = { λ _ r. r ≡ Memory };

    fn from(_e: AllocError) -> Fault {
        Fault::Memory
    }
}

impl<T: Drop> From<AllocFailed<T>> for Fault {
    ghost from_gives = { λ _ r. r ≡ Memory };

    fn from(_e: AllocFailed<T>) -> Fault {
        Fault::Memory
    }
}

impl From<fmt::Error> for Fault {
    ghost from_gives = { λ _ r. r ≡ Memory };

    fn from(_e: fmt::Error) -> Fault {
        Fault::Memory
    }
}

impl From<command::InvalidChain> for Fault {
    ghost from_gives = { λ _ r. r ≡ InvalidChain };

    fn from(_e: command::InvalidChain) -> Fault {
        Fault::InvalidChain
    }
}
