//! What a director's journal means: what survives a power cut. Every journal keeps to this meaning.

#![tactic(auto)]

mod bounds;
mod writes;

ghost use Rattle.std.specs.Prelude.{◌≡◌, List, length};
ghost use Rattle.journal.specs.Meaning.{Meaning, open_of, settled_of, Writes, Within};
ghost use Rattle.journal.specs.declared.writes.Write.TheVariants.{Promise, Put, Settle};
ghost use Rattle.journal.specs.declared.writes.Write.{Write};

pub use bounds::{Bounds, in_window, place_of};
use command::Command;
pub use writes::{Entry, Write, make_write};

/// The most slots that a journal can have.
pub const MOST_SLOTS: u32 = 60_000;

/// How many slots after the settled ones have an open entry: the window, kept in so many places by slot mod `SPAN`.
pub const SPAN: usize = 8;

/// A journal: a capacity, a promised ballot, a settled list, and an open entry for each of the `SPAN` slots after it.
/// Questions change nothing. A write answers whether it was taken, and one that was not changes nothing.
// No Option and no Result: each question has an answer for every slot, the no-op or the blank entry where there is nothing,
// and a write is taken or not. Other implementations of a journal keep to these answers too.
pub trait Journal {
    ghost meaning: { Self → Meaning };

    // which lists of taken writes may lie behind the journal: the journal chooses, and only this is known of it, that
    // a list which may before a write may after it with the write, if it was taken, at its end
    ghost behind: { Self → List Write → Type 0 };

    /// How many slots it has, 1 to 60,000.
    fn capacity(&self) -> u32
        ensures { result ≡ (meaning self.now).capacity };

    /// The promised ballot, 0 at first.
    fn promised(&self) -> u32
        ensures { result ≡ (meaning self.now).promised };

    /// How many slots are settled.
    fn settled_count(&self) -> u32
        ensures { result ≡ length (meaning self.now).settled };

    /// The command settled in a slot; elsewhere the no-op.
    fn settled(&self, slot: u32) -> Command
        ensures { result ≡ settled_of (meaning self.now) slot };

    /// The open entry of a slot; elsewhere the blank one.
    fn open(&self, slot: u32) -> Entry
        ensures { result ≡ open_of (meaning self.now) slot };

    /// Makes a write if it is taken, and tells whether it was.
    fn take(&mut self, write: Write) -> bool
        ensures { Writes meaning behind write self.old self.new result };

    // The hints to the compiler here, at `Bounds::allow` and at each `take`: a caller of one of these three knows the
    // kind of its write, and with the bodies in one place the match on the kind goes.

    /// Promises a ballot that is not below the promised one.
    #[inline(always)]
    fn promise(&mut self, ballot: u32) -> bool
        ensures { Writes meaning behind (Promise ballot) self.old self.new result }
    {
        self.take(Write::Promise { ballot })
    }

    /// Puts a command with the promised ballot into a slot of the window.
    #[inline(always)]
    fn put(&mut self, slot: u32, ballot: u32, command: &Command) -> bool
        ensures { Writes meaning behind (Put slot ballot command.now) self.old self.new result }
    {
        self.take(Write::Put {
            slot,
            ballot,
            command: *command,
        })
    }

    /// Settles a command in the next slot.
    #[inline(always)]
    fn settle(&mut self, command: &Command) -> bool
        ensures { Writes meaning behind (Settle command.now) self.old self.new result }
    {
        self.take(Write::Settle { command: *command })
    }

    ghost within: { (j : Self) → Within (meaning j) };
}
