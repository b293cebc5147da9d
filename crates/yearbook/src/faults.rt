//! Why a list was not sealed, or a file not read; what a lower part reported stands inside, whole.

ghost use Rattle.yearbook.specs.declared.faults.SealFault.TheVariants.{List, Entry, Memory};
ghost use Rattle.yearbook.specs.declared.faults.ReadFault.TheVariants.{File, Memory as NoText};
ghost use Rattle.std.specs.Prelude.{◌≡◌};

use archive::{Broken, ListRefusal};
use std::alloc::AllocError;
use std::fmt;
use thiserror::Error;

/// Why a list was not sealed.
#[derive(Clone, Copy, PartialEq, Eq, Hash, Debug)]
pub enum SealFault {
    /// The text is no list.
    List(listing::Fault),
    /// The archive refused an entry: only the 65,536th can be refused here.
    Entry(ListRefusal),
    /// No memory was left.
    Memory,
}

/// Why a file was not read.
#[derive(Clone, Copy, PartialEq, Eq, Hash, Debug, Error)]
pub enum ReadFault {
    /// The file is no archive.
    #[error("{0}")]
    File(Broken),
    /// The file is an archive, and no memory was left for its text.
    #[error("no memory is left")]
    Memory,
}

// By hand: the line of an entry is worked out from its number.

impl fmt::Display for SealFault {
    fn fmt<W: fmt::Write>(&self, f: &mut fmt::Formatter<W>) -> fmt::Result {
        match self {
            SealFault::List(fault) => write!(f, "{fault}"),
            SealFault::Entry(ListRefusal::Entry { number, refusal }) => {
                // Entry 1 stands in line 2, after the chain.
                let line = number.saturating_add(1);
                write!(f, "refused {} at line {line}: {refusal}", refusal.number())
            }
            SealFault::Entry(refused) => write!(f, "{refused}"),
            SealFault::Memory => f.write_str("no memory is left"),
        }
    }
}

impl std::error::Error for SealFault {}

// Written out and not derived: clauses name the fault that a `?` makes.

impl From<listing::Fault> for SealFault {
    ghost from_gives = { λ e r. r ≡ List e };

    fn from(e: listing::Fault) -> SealFault {
        SealFault::List(e)
    }
}

impl From<ListRefusal> for SealFault {
    ghost from_gives = { λ e r. r ≡ Entry e };

    fn from(e: ListRefusal) -> SealFault {
        SealFault::Entry(e)
    }
}

impl From<AllocError> for SealFault {
    ghost from_gives = { λ _ r. r ≡ Memory };

    fn from(_e: AllocError) -> SealFault {
        SealFault::Memory
    }
}

impl From<Broken> for ReadFault {
    ghost from_gives = { λ e r. r ≡ File e };

    fn from(e: Broken) -> ReadFault {
        ReadFault::File(e)
    }
}

impl From<listing::Fault> for ReadFault {
    ghost from_gives = { λ _ r. r ≡ NoText };

    fn from(_e: listing::Fault) -> ReadFault {
        ReadFault::Memory
    }
}
