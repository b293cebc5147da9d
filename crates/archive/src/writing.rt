//! The writer: an open archive that grows entry by entry and is spent by seal or strike.

ghost use Rattle.std.specs.Prelude.{◌≡◌, ◌+◌, ◌<◌, ◌≤◌, true, length, replicate, Some};
ghost use Rattle.archive.specs.Layout.{header, entry};
ghost use Rattle.archive.specs.Writing.{refusal_number, has_room, entry_size, Begins, Adds, Seals};
ghost use Rattle.octets.specs.Areas.{over};
ghost use Rattle.command.specs.Commands.{well_formed, Sized};

use crate::{COUNT_BYTES, HEADER_BYTES, MARK, is_chain};
use command::{Command, SERIAL_BYTES, UnknownVerb, Verb};
use octets::{Number, write_bytes};
use thiserror::Error;

/// An archive that is being written: where its next part goes, and how many entries it has. It tells no length,
/// and it cannot be let go: seal or strike ends it.
// Plain numbers and not the area: each call is handed the area, whose owner may read it in between.
pub struct OpenArchive {
    at: usize,
    count: u16,
}

/// A finished archive: the first `length` bytes of its area are the file.
#[derive(Drop, PartialEq, Eq, Debug)]
pub struct SealedArchive {
    length: usize,
}

/// Why the writer refused a call; nothing was written then.
#[derive(Clone, Copy, PartialEq, Eq, Hash, Debug, Error)]
pub enum Refusal {
    #[error("the command is not well formed")]
    IllFormed = 5,
    #[error("a chain is 1 to 7 different directors from 0 to 31")]
    InvalidChain = 11,
    #[error("the area has no space for it")]
    NoSpace = 14,
    #[error("an archive holds at most 65,535 entries")]
    Full = 16,
}

impl Refusal {
    /// The number of this refusal.
    pub fn number(self) -> u8
        ensures { result ≡ refusal_number self }
    {
        self as u8
    }
}

impl OpenArchive {
    /// Writes mark and founding chain at the front of the area. Refusals 11 (no valid chain) and 14 (no space).
    pub fn begin(area: &mut [u8], members: &[u8]) -> Result<OpenArchive, Refusal>
        ensures { Begins area.old members.now area.new result }
    {
        if !is_chain(members) {
            return Err(Refusal::InvalidChain);
        }
        let at = HEADER_BYTES + members.len();
        if !has_room(area, 0, at) {
            return Err(Refusal::NoSpace);
        }
        write_header(area, members);
        Ok(OpenArchive { at, count: 0 })
    }

    /// Appends an entry. Refusals 5 (ill formed), 16 (65,535 entries) and 14 (no space); the archive is then handed
    /// back.
    // Refused, it is handed back beside the refusal, as a pair: only the archive goes on, to a seal or a strike.
    pub fn add(
        self,
        area: &mut [u8],
        command: &Command,
    ) -> Result<OpenArchive, (OpenArchive, Refusal)>
        ensures { Adds area.old self command.now area.new result }
    {
        let Some(size) = entry_size(command) else {
            return Err((self, Refusal::IllFormed));
        };
        if self.count == u16::MAX {
            return Err((self, Refusal::Full));
        }
        if !has_room(area, self.at, size) {
            return Err((self, Refusal::NoSpace));
        }
        let OpenArchive { at, count } = self;
        write_entry(area, at, command);
        Ok(OpenArchive {
            at: at + size,
            count: count + 1,
        })
    }

    /// Writes the count, which finishes the file. Refusal 14 (no space); the archive is handed back then.
    pub fn seal(self, area: &mut [u8]) -> Result<SealedArchive, (OpenArchive, Refusal)>
        ensures { Seals area.old self area.new result }
    {
        if !has_room(area, self.at, 0) {
            return Err((self, Refusal::NoSpace));
        }
        let OpenArchive { at, count } = self;
        count.write_le(area, at);
        Ok(SealedArchive {
            length: at + COUNT_BYTES,
        })
    }

    /// Sets the whole area to 00 and ends the archive.
    pub fn strike(self, area: &mut [u8])
        ensures { area.new ≡ replicate (length area.old) 0 }
    {
        let OpenArchive { at: _, count: _ } = self;
        area.fill(0);
    }
}

impl SealedArchive {
    /// How many bytes the file has.
    pub fn length(&self) -> usize
        ensures { result ≡ self.now.length }
    {
        self.length
    }
}

// Whether this many more bytes from offset `at` on, and the count after them, lie within the area.
fn has_room(area: &[u8], at: usize, size: usize) -> bool
    ensures { result ≡ has_room area.now at size }
{
    area.len()
        .checked_sub(at)
        .and_then(|left| left.checked_sub(COUNT_BYTES))
        .is_some_and(|left| size <= left)
}

// Writes mark, length and members.
fn write_header(area: &mut [u8], members: &[u8])
    requires { (length members.now < 256) × (5 + length members.now ≤ length area.old) }
    ensures { area.new ≡ over area.old 0 (header members.now) }
{
    write_bytes(area, 0, &MARK);
    write_bytes(area, 4, &[members.len() as u8]);
    write_bytes(area, HEADER_BYTES, members);
}

// How many bytes the entry of a command takes, if it may stand in a list. `size_of` of the reader is another table: it
// tests the director that it finds, and asks for no more than the verb.
fn entry_size(command: &Command) -> Option<usize>
    ensures { result ≡ entry_size command.now }
{
    if !command.is_well_formed() {
        return None;
    }
    let size = match Verb::try_from(command.verb).ok()? {
        Verb::Noop => 1,
        Verb::Add | Verb::Remove => 2,
        Verb::Change => 7 + SERIAL_BYTES,
    };
    Some(size)
}

// Writes the entry of a command. A command of the code has fields that fit their widths.
fn write_entry(area: &mut [u8], at: usize, command: &Command)
    requires formed { well_formed command.now ≡ true }
    requires within { at + length (entry command.now) ≤ length area.old }
    ensures written { area.new ≡ over area.old at (entry command.now) }
    ensures sized { Sized command.now }
{
    let Command {
        verb,
        origin,
        serial,
        a,
        b,
    } = *command;
    match Verb::try_from(verb) {
        Err(UnknownVerb(_)) => {}
        Ok(Verb::Noop) => write_bytes(area, at, &[verb]),
        Ok(Verb::Add | Verb::Remove) => write_bytes(area, at, &[verb, a as u8]),
        Ok(Verb::Change) => {
            write_bytes(area, at, &[verb]);
            origin.write_le(area, at + 1);
            serial.write_le(area, at + 3);
            a.write_le(area, at + 3 + SERIAL_BYTES);
            b.write_le(area, at + 5 + SERIAL_BYTES);
        }
    }
}
