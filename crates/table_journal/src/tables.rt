//! A journal in memory, which always has room for as many commands as it has slots.

ghost use Rattle.journal.specs.Meaning.{Within};
ghost use Rattle.std.specs.Prelude.{◌≡◌, ◌≤◌, MatchResult, vec_items, vec_capacity};

use crate::TableRefusal;
use command::Command;
use journal::{Bounds, Entry, Journal, MOST_SLOTS, SPAN, Write, in_window, place_of};
use std::alloc::Global;

/// A journal in memory. All its memory is taken when it is made, so no write fails for want of memory.
#[derive(Drop)]
pub struct TableJournal {
    capacity: u32,
    promised: u32,
    settled: Vec<Command>,
    places: [Entry; SPAN],
    // Clauses see the fields: the law of journals speaks of each table, and a table seen as its meaning alone would not
    // keep it.
    ghost within: { Within (record {
      capacity = capacity;
      promised = promised;
      settled = vec_items settled;
      places = places;
    }) },
    ghost room: { capacity ≤ vec_capacity settled },
}

impl TableJournal {
    ghost use Rattle.journal.specs.Meaning.{taken};
    ghost use Rattle.table_journal.specs.Tables.{Made, refusal_for, table_meaning};

    /// A new journal with a slot for each record, of more than 60,000 records with 60,000 slots. With 0 records it is
    /// refusal 12.
    pub fn new(heap: Global, records: usize) -> Result<TableJournal, TableRefusal>
        ensures { MatchResult result (λ j. Made records j) (λ e. e ≡ refusal_for records) }
    {
        if records == 0 {
            return Err(TableRefusal::NoRecord);
        }
        let capacity = records.min(MOST_SLOTS as usize);
        Ok(TableJournal {
            capacity: capacity as u32,
            promised: 0,
            settled: Vec::with_capacity(heap, capacity)?,
            places: [Entry::BLANK; SPAN],
        })
    }

    // Whether a write is taken.
    #[inline(always)]
    #[tactic(auto, unfolding(journal::specs::Meaning::taken))]
    fn takes(&self, write: Write) -> bool
        ensures { result ≡ taken write (table_meaning self.now) }
    {
        let bounds = Bounds {
            capacity: self.capacity,
            promised: self.promised,
            settled: self.settled.len() as u32,
        };
        bounds.allow(write)
    }
}

impl Journal for TableJournal {
    ghost use Rattle.std.proofs.Common.{rules};
    ghost use Rattle.table_journal.specs.Tables.{table_meaning, table_behind};

    ghost meaning = { table_meaning };

    ghost behind = { table_behind };

    ghost within = { Prim.search rules };

    fn capacity(&self) -> u32 {
        self.capacity
    }

    fn promised(&self) -> u32 {
        self.promised
    }

    fn settled_count(&self) -> u32 {
        self.settled.len() as u32
    }

    fn settled(&self, slot: u32) -> Command {
        slot.checked_sub(1)
            .and_then(|place| self.settled.get(place as usize).copied())
            .unwrap_or(Command::NOOP)
    }

    fn open(&self, slot: u32) -> Entry {
        if in_window(self.settled_count(), slot) {
            self.places[place_of(slot)]
        } else {
            Entry::BLANK
        }
    }

    #[inline(always)]
    fn take(&mut self, write: Write) -> bool {
        let taken = self.takes(write);
        if taken {
            match write {
                Write::Promise { ballot } => self.promised = ballot,
                Write::Put {
                    slot,
                    ballot,
                    command,
                } => self.places[place_of(slot)] = Entry { ballot, command },
                Write::Settle { command } => {
                    self.settled.push_reserved(command);
                    self.places[self.settled.len() % SPAN] = Entry::BLANK;
                },
            }
        }
        taken
    }
}
