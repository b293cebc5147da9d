//! The writes of a journal, as values.

ghost use Rattle.journal.specs.Laws.{JournalLaws};
ghost use Rattle.journal.specs.Meaning.{Writes};

use crate::Journal;
use command::Command;

/// An open entry of a slot: a ballot and a command.
#[derive(Clone, Copy, PartialEq, Eq, Debug)]
pub struct Entry {
    pub ballot: u32,
    pub command: Command,
}

impl Entry {
    /// The entry of a slot in which nothing was put.
    pub const BLANK: Entry = Entry {
        ballot: 0,
        command: Command::NOOP,
    };
}

/// A write of a journal.
#[derive(Clone, Copy, PartialEq, Eq, Debug)]
pub enum Write {
    /// A ballot is promised.
    Promise {
        ballot: u32,
    },
    /// A command is put into a slot of the window, with the promised ballot.
    Put {
        slot: u32,
        ballot: u32,
        command: Command,
    },
    /// A command is settled in the next slot.
    Settle {
        command: Command,
    },
}

/// Makes a write in any journal. Over any list of writes the promised ballot never falls, the settled list only grows,
/// and the open entry of a slot is the newest that was put into it, with the highest ballot of all.
#[tactic(auto, using(crate::proofs::Laws::journal_laws))]
pub fn make_write<J: Journal>(journal: &mut J, write: &Write) -> bool
    ensures makes { Writes J.Journal.meaning J.Journal.behind write.now journal.old journal.new result }
    ensures laws { JournalLaws }
{
    journal.take(*write)
}
