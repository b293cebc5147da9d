//! A log of writes, which always has memory for as many as it has room for.

ghost use Rattle.std.specs.Prelude.{◌≤◌, IfOk, vec_capacity};

use journal::Write;
use std::alloc::{AllocError, Global};

/// A list of writes with room for so many; the writes after them are not kept, and then it is not complete.
#[derive(Drop)]
pub(crate) struct Log {
    pub(crate) writes: Vec<Write>,
    // How many writes are kept is promised exactly, and a Vec may have more memory than it was asked for: so the number
    // stands beside it.
    pub(crate) room: usize,
    pub(crate) complete: bool,
    ghost reserved: { room ≤ vec_capacity writes },
}

impl Log {
    ghost use Rattle.journal.specs.declared.writes.Write.{Write};
    ghost use Rattle.logged_journal.specs.Logs.{Started, Keeps};

    // A log of no write, with room for so many.
    pub(crate) fn new(heap: Global, room: usize) -> Result<Log, AllocError>
        ensures { IfOk result (λ l. Started room l) }
    {
        Ok(Log {
            writes: Vec::with_capacity(heap, room)?,
            room,
            complete: true,
        })
    }

    // Keeps a write, if there is room for it.
    pub(crate) fn keep(&mut self, write: Write)
        ensures { Keeps self.old write self.new }
    {
        if self.writes.len() < self.room {
            self.writes.push_reserved(write);
        } else {
            self.complete = false;
        }
    }
}
