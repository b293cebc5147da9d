//! Settling slots.

ghost use Rattle.protocol.specs.Desks.{forget};
ghost use Rattle.protocol.specs.Replies.{ran};
ghost use Rattle.protocol.specs.Settling.{advance, backed, settle, settle_open};
ghost use Rattle.steps.specs.Doing.{at, Took};
ghost use Rattle.steps.specs.Views.{view};
ghost use Rattle.std.specs.Prelude.{◌≡◌, [], ◌∷◌};

use crate::desks::Desk;
use crate::memory::{Memory, Role};
use command::{Command, Verb};
use journal::{Entry, Journal};
use machine::Machine;
use protocol::{Acknowledged, Window, place_of};

impl<J: Journal, M: Machine> Desk<'_, '_, '_, J, M> {
    /// Settles a command in the next slot: in the journal, by the machine if it is for it, and then both windows move.
    /// The chains move too.
    pub fn settle(&mut self, command: &Command)
        ensures { Took M.state M.rule (settle command.now) self.old self.new }
    {
        let slot = self.journal.settled_count() + 1;
        let taken = self.journal.settle(command);
        self.memory.forget(slot);
        if taken {
            self.chains.settle(command);
            self.answer = run(self.machine, command, self.answer);
        }
    }

    /// Advances: settles for as long as enough acknowledged what is open in the next slot.
    pub fn advance(&mut self)
        ensures { Took M.state M.rule advance self.old self.new }
    {
        while self.is_backed() {
            self.settle_open();
        }
    }

    // Whether the next slot's entry has the ballot of its acknowledgements, and their set is enough.
    fn is_backed(&self) -> bool
        ensures { result ≡ backed (at self.now) }
    {
        let journal: &J = self.journal;
        let memory: &Memory = self.memory;
        let slot = journal.settled_count() + 1;
        // By its place: a `Window` asks for places that may be written, and here they are only read.
        let acks = memory.acks[place_of(slot)];
        journal.open(slot).ballot == acks.ballot && self.chains.get(slot).is_enough(acks.set)
    }

    // Settles what is open in the next slot.
    fn settle_open(&mut self)
        ensures { Took M.state M.rule settle_open self.old self.new }
    {
        let entry = self.journal.open(self.journal.settled_count() + 1);
        self.settle(&entry.command);
    }
}

impl Memory {
    // A settled slot leaves both windows.
    fn forget(&mut self, slot: u32)
        ensures { view self.new ≡ forget slot (view self.old) }
    {
        Window {
            places: &mut self.acks,
        }
        .put(slot, Acknowledged::NONE);
        if let Role::Standing { reports, .. } = &mut self.role {
            Window { places: reports }.put(slot, Entry::BLANK);
        }
    }
}

// Applies a command if it is for the machine; the last answer is then the machine's.
fn run<M: Machine>(machine: &mut M, command: &Command, answer: Option<u16>) -> Option<u16>
    ensures { (M.state machine.new, result)
        ≡ ran M.rule (M.state machine.old, answer) (command.now ∷ []) }
{
    if Verb::try_from(command.verb) == Ok(Verb::Change) {
        Some(machine.apply(command))
    } else {
        answer
    }
}
