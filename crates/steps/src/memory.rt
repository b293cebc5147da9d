//! What a director remembers between calls, but for its journal.

ghost use Rattle.journal.specs.Windows.{span};
ghost use Rattle.protocol.specs.Refusing.{line_room};
ghost use Rattle.std.specs.Prelude.{◌≡◌, ◌≤◌, length, vec_len, vec_capacity};

use command::{Chain, Command, DirectorSet};
use journal::{Entry, SPAN};
use protocol::Acknowledged;

// Two states with names of the field, and no Option.

/// A director follows, or it stands as a leader with those that promised its ballot and what they reported.
#[derive(Clone, Copy, PartialEq, Eq, Debug)]
pub enum Role {
    Following,
    Standing {
        promisers: DirectorSet,
        reports: [Entry; SPAN],
    },
}

/// The memory of a director. The line counts only while it stands.
// The line has its room while the director follows too, since no call may take memory.
#[derive(Debug, Drop)]
pub struct Memory {
    pub number: u8,
    pub founding: Chain,
    pub role: Role,
    pub line: Vec<Command>,
    pub acks: [Acknowledged; SPAN],
    ghost director: { number ≤ 31 },
    ghost few: { vec_len line ≤ line_room },
    ghost room: { line_room ≤ vec_capacity line },
    ghost eight: { length acks ≡ span },
}
