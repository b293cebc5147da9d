//! Why no journal in memory was made.

ghost use Rattle.std.specs.Prelude.{◌≡◌};
ghost use Rattle.table_journal.specs.Refusals.{refusal_number};
ghost use Rattle.table_journal.specs.declared.refusals.TableRefusal.TheVariants.{Memory};

use std::alloc::AllocError;
use thiserror::Error;

/// Why no journal was made.
#[derive(Clone, Copy, PartialEq, Eq, Hash, Debug, Error)]
pub enum TableRefusal {
    /// A journal of 0 records was asked for (refusal 12).
    #[error("a journal has at least one record")]
    NoRecord,
    /// There was not memory enough for the records.
    #[error("no memory is left")]
    Memory,
}

impl TableRefusal {
    /// The number of this refusal; want of memory has none.
    // A match and no discriminants, since one has none.
    pub fn number(self) -> Option<u8>
        ensures { result ≡ refusal_number self }
    {
        match self {
            TableRefusal::NoRecord => Some(12),
            TableRefusal::Memory => None,
        }
    }
}

// Written out and not derived: clauses name the refusal that a `?` makes.

impl From<AllocError> for TableRefusal {
    ghost from_gives = { λ _ e. e ≡ Memory };

    fn from(_e: AllocError) -> TableRefusal {
        Self::Memory
    }
}
