//! What decides whether a write is taken.

ghost use Rattle.journal.specs.Windows.{in_window, place_of, span};
ghost use Rattle.std.specs.Prelude.{◌≡◌, ◌<◌};

use crate::{SPAN, Write};

/// The numbers of a journal that decide whether it takes a write.
#[derive(Clone, Copy, PartialEq, Eq, Debug)]
pub struct Bounds {
    pub capacity: u32,
    pub promised: u32,
    pub settled: u32,
}

impl Bounds {
    ghost use Rattle.journal.specs.Bounding.{Decides};

    /// Whether a journal with these numbers takes a write.
    #[inline(always)]
    #[tactic(auto, unfolding(crate::specs::Meaning::taken))]
    pub fn allow(self, write: Write) -> bool
        ensures { Decides self write result }
    {
        match write {
            Write::Promise { ballot } => self.promised <= ballot,
            Write::Put {
                slot,
                ballot,
                command,
            } => {
                ballot == self.promised
                    && 1 <= ballot
                    && in_window(self.settled, slot)
                    && slot <= self.capacity
                    && command.is_well_formed()
            }
            Write::Settle { command } => {
                self.settled < self.capacity && command.is_well_formed()
            }
        }
    }
}

/// Whether a slot is in the window where so many slots are settled.
pub fn in_window(settled: u32, slot: u32) -> bool
    ensures { result ≡ in_window settled slot }
{
    settled < slot && slot - settled <= SPAN as u32
}

/// The place of a slot among those of the window.
pub fn place_of(slot: u32) -> usize
    ensures place { result ≡ place_of slot }
    ensures within { result < span }
{
    slot as usize % SPAN
}
