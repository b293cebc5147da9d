//! A journal that keeps a list of its writes.

ghost use Rattle.journal.specs.declared.writes.Write.{Write};
ghost use Rattle.logged_journal.specs.Layers.{log_of, is_complete, log_behind, Over, Exact};
ghost use Rattle.std.specs.Prelude.{◌≡◌, MatchResult};
ghost use Rattle.std.proofs.Common.{rules};

use crate::logs::Log;
use command::Command;
use journal::{Entry, Journal, Write};
use std::alloc::{AllocFailed, Global};

/// Any journal, with a list of the writes that it took since this layer was laid over it. The layer takes memory for a
/// number of writes when it is laid; a write for which there is no room is taken below all the same, but not kept, and
/// from then on the list is not complete.
#[derive(Drop)]
pub struct LoggedJournal<J> {
    lower: J,
    log: Log,
}

impl<J: Journal> LoggedJournal<J> {
    /// This journal with a log over it that has room for so many writes and keeps none yet. Where there is no memory
    /// for the log, the journal is given back.
    pub fn over(heap: Global, lower: J, room: usize) -> Result<LoggedJournal<J>, AllocFailed<J>>
        ensures { MatchResult result (λ j. Over lower room j) (λ e. e.value ≡ lower) }
    {
        // Both outcomes take the journal, so they are the arms of a match.
        match Log::new(heap, room) {
            Ok(log) => Ok(LoggedJournal { lower, log }),
            Err(_) => Err(AllocFailed { value: lower }),
        }
    }

    /// The first writes that were taken, in their order, as many as there is room for.
    pub fn log(&self) -> &[Write]
        ensures { result.now ≡ log_of self.now }
    {
        self.log.writes.as_slice()
    }

    /// Whether all writes that were taken are in the log: then what lies behind the journal is exactly the log.
    pub fn is_complete(&self) -> bool
        ensures answer { result ≡ is_complete self.now }
        ensures exact { Exact self.now result }
    {
        self.log.complete
    }

    /// The journal below.
    // As in the layers over machines: no code takes either kind of layer, so a trait for both would have no caller.
    pub fn lower(&self) -> &J
        ensures { result.now ≡ self.now.lower }
    {
        &self.lower
    }

    /// The journal below, without the log.
    pub fn into_lower(self) -> J
        ensures { result ≡ self.lower }
    {
        let LoggedJournal { lower, log: _ } = self;
        lower
    }
}

impl<J: Journal> Journal for LoggedJournal<J> {
    ghost meaning = { λ j. J.Journal.meaning j.lower };

    ghost behind = { log_behind };

    ghost within = { Prim.search rules };

    fn capacity(&self) -> u32 {
        self.lower.capacity()
    }

    fn promised(&self) -> u32 {
        self.lower.promised()
    }

    fn settled_count(&self) -> u32 {
        self.lower.settled_count()
    }

    fn settled(&self, slot: u32) -> Command {
        self.lower.settled(slot)
    }

    fn open(&self, slot: u32) -> Entry {
        self.lower.open(slot)
    }

    // Makes a write below, and keeps it if it was taken there.
    #[inline(always)]
    #[tactic(auto, unfolding(journal::specs::Meaning::wrote))]
    fn take(&mut self, write: Write) -> bool {
        let taken = self.lower.take(write);
        if taken {
            self.log.keep(write);
        }
        taken
    }
}
