//! A journal in bytes: opened, asked, written and released.

ghost use Rattle.area_journal.specs.Exactness.{Exact};
ghost use Rattle.area_journal.specs.Journals.{Opens, Again, bytes_of, tells, may_lie_behind};
ghost use Rattle.area_journal.specs.Opening.{fault};
ghost use Rattle.area_journal.specs.Reading.{meaning_of};
ghost use Rattle.area_journal.specs.Writing.{Does};
ghost use Rattle.journal.specs.Meaning.{taken, Writes};
ghost use Rattle.std.specs.Prelude.{◌≡◌, None, Result};
ghost use Rattle.area_journal.specs.declared.areas.AreaJournal.{AreaJournal};
ghost use Rattle.area_journal.specs.declared.faults.NotOpened.{NotOpened};
ghost use Rattle.area_journal.specs.Within.{within_of};

use crate::checking::check;
use crate::layout::{command_of, entry_of};
use crate::parts::Parts;
use crate::writing::make;
use crate::{AreaJournal, NotOpened};
use command::Command;
use journal::{Entry, Journal, Write, in_window, place_of};

impl AreaJournal {
    /// Takes an area with any content as a journal, or hands it back with the first fault: refusal 12 where it has no
    /// space for a record, else 13 with the offset of the first part that is not in order. No byte is altered.
    #[tactic(auto, using(crate::proofs::Checks::none_sound, crate::proofs::Checks::sound_parts))]
    pub fn open(area: Vec<u8>) -> Result<AreaJournal, NotOpened>
        ensures opens { Opens area.items result }
        ensures exact { Exact area.items }
    {
        match check(&area) {
            Ok(()) => Ok(AreaJournal { area }),
            Err(fault) => Err(NotOpened { area, fault }),
        }
    }

    /// The bytes of the journal.
    pub fn area(&self) -> &[u8]
        ensures { result.now ≡ bytes_of self.now }
    {
        self.area.as_slice()
    }

    /// Makes a write if it is taken, and answers whether it was. It alters the bytes of that write and no others.
    #[inline(always)]
    #[tactic(auto, using(crate::proofs::Keeping::did_in, crate::proofs::Meanings::does_not))]
    pub fn write(&mut self, write: Write) -> bool
        ensures does { Does write (bytes_of self.old) (bytes_of self.new) result }
        ensures writes { Writes tells may_lie_behind write self.old self.new result }
    {
        let taken = self.takes(write);
        if taken {
            make(&mut self.area, write);
        }
        taken
    }

    /// Gives the bytes back: opened again they are this journal.
    #[tactic(auto, using(crate::proofs::Checks::sound_none, crate::proofs::Keeping::opened_again))]
    pub fn release(self) -> Vec<u8>
        ensures bytes { result.items ≡ bytes_of self }
        ensures sound { fault result.items ≡ None }
        ensures again { (x : Result AreaJournal NotOpened) → Opens result.items x
            → Again (meaning_of (bytes_of self)) x }
    {
        let AreaJournal { area } = self;
        area
    }

    // Whether a write is taken.
    #[inline(always)]
    #[tactic(auto, unfolding(journal::specs::Meaning::taken), using(crate::proofs::Meanings::decisions))]
    fn takes(&self, write: Write) -> bool
        ensures { result ≡ taken write (meaning_of (bytes_of self.now)) }
    {
        self.parts().bounds().allow(write)
    }

    // The bytes, read part by part.
    fn parts(&self) -> Parts<'_>
        ensures { result.area.now ≡ bytes_of self.now }
    {
        Parts { area: &self.area }
    }
}

impl Journal for AreaJournal {
    ghost meaning = { tells };

    ghost behind = { may_lie_behind };

    ghost within = { λ j. within_of (bytes_of j) j.long j.held };

    #[tactic(auto, unfolding(crate::specs::Reading::meaning_of))]
    fn capacity(&self) -> u32 {
        self.parts().capacity()
    }

    #[tactic(auto, unfolding(crate::specs::Reading::meaning_of))]
    fn promised(&self) -> u32 {
        self.parts().promised()
    }

    #[tactic(auto, using(crate::proofs::Meanings::count_is))]
    fn settled_count(&self) -> u32 {
        self.parts().count()
    }

    #[tactic(auto, using(crate::proofs::Questions::past_settled, crate::proofs::Questions::settled_here))]
    fn settled(&self, slot: u32) -> Command {
        let parts = self.parts();
        match slot.checked_sub(1) {
            Some(i) if i < parts.count() => command_of(parts.record(i as usize)),
            _ => Command::NOOP,
        }
    }

    #[tactic(auto, using(crate::proofs::Questions::open_here, crate::proofs::Questions::open_else))]
    fn open(&self, slot: u32) -> Entry {
        let parts = self.parts();
        if in_window(parts.count(), slot) {
            entry_of(parts.place(place_of(slot)))
        } else {
            Entry::BLANK
        }
    }

    #[inline(always)]
    fn take(&mut self, write: Write) -> bool {
        self.write(write)
    }
}
