//! Why an area was not opened.

ghost use Rattle.area_journal.specs.Opening.{refusal_number};
ghost use Rattle.std.specs.Prelude.{◌≡◌};

use thiserror::Error;

/// Why an area was not opened: it has no space for a record (refusal 12), or its part at an offset is not in order
/// (refusal 13).
#[derive(Clone, Copy, PartialEq, Eq, Hash, Debug, Error)]
pub enum OpenFault {
    #[error("refused 12: the area has no space for a record")]
    NoRecord,
    #[error("refused 13 at {offset}: the part that begins here is broken")]
    Broken { offset: usize },
}

impl OpenFault {
    /// The number of this refusal.
    // A match and no discriminants: a variant with a value can have none.
    pub fn number(self) -> u8
        ensures { result ≡ refusal_number self }
    {
        match self {
            OpenFault::NoRecord => 12,
            OpenFault::Broken { offset: _ } => 13,
        }
    }
}

/// An area that was not opened, just as it was handed in, and why.
#[derive(PartialEq, Eq, Debug, Drop, Error)]
#[error("{fault}")]
pub struct NotOpened {
    pub area: Vec<u8>,
    pub fault: OpenFault,
}
