//! Entries of an archive file, one after another.

ghost use Rattle.std.specs.Prelude.{◌≡◌, ℕ, ◌+◌, ◌-◌, ◌≤◌, true, length, Some, IsSome};
ghost use Rattle.archive.specs.Layout.{entry};
ghost use Rattle.archive.specs.Reading.{size_of, command_as, command_of, decoded};
ghost use Rattle.command.specs.Commands.{well_formed, serial_bytes, Sized};
ghost use Rattle.command.specs.declared.Command.{Command};
ghost use Rattle.command.specs.declared.verbs.Verb.TheVariants.{Change};

use command::{Command, SERIAL_BYTES, Serial, UnknownVerb, Verb};
use octets::Number;

/// An entry: the part of the file that holds it, and the offset where it begins.
#[derive(Clone, Copy, PartialEq, Eq, Hash, Debug)]
pub struct Entry<'a> {
    pub offset: usize,
    pub bytes: &'a [u8],
}

/// The entries that are still to come.
#[derive(Clone, Copy, Debug)]
pub struct Entries<'a> {
    pub(crate) rest: &'a [u8],
    pub(crate) end: usize,
    ghost within: { length rest.now ≤ end },
}

impl Entry<'_> {
    /// The command that the entry tells, if its bytes are one whole entry: those of a reader always are.
    pub fn command(&self) -> Option<Command>
        ensures answer { result ≡ decoded self.now.bytes.now }
        ensures back { (c : Command) → well_formed c ≡ true → Sized c
            → self.now.bytes.now ≡ entry c → result ≡ Some c }
    {
        let bytes = self.bytes;
        if size_of(bytes)? != bytes.len() {
            return None;
        }
        Some(command_of(bytes))
    }
}

impl Entries<'_> {
    // The offset where what is left begins.
    pub(crate) fn offset(&self) -> usize
        ensures { result ≡ self.now.end - length self.now.rest.now }
    {
        self.end - self.rest.len()
    }
}

impl<'a> Iterator for Entries<'a> {
    ghost use Rattle.std.specs.Iterator.{at_most};
    ghost use Rattle.archive.specs.Readers.{Gives};

    type Item = Entry<'a>;

    ghost next_gives = { Gives };

    ghost remaining = { λ s. at_most (length s.rest.now) };

    /// The next entry, if there is one.
    #[tactic(auto, using(crate::proofs::Parts::part_told, std::proofs::lemmas::List::take_rest))]
    fn next(&mut self) -> Option<Entry<'a>> {
        let size = size_of(self.rest)?;
        let offset = self.offset();
        let (bytes, rest) = self.rest.split_at(size);
        self.rest = rest;
        Some(Entry { offset, bytes })
    }
}

// The command that the entry at the front of these bytes tells.
fn command_of(bytes: &[u8]) -> Command
    requires { IsSome (size_of bytes.now) }
    ensures { result ≡ command_of bytes.now }
{
    let verb = bytes[0];
    match Verb::try_from(verb) {
        Err(UnknownVerb(_)) | Ok(Verb::Noop) => Command::NOOP,
        Ok(Verb::Add | Verb::Remove) => Command {
            verb,
            a: bytes[1] as u16,
            ..Command::NOOP
        },
        Ok(Verb::Change) => change_of(bytes),
    }
}

// The change for the machine that these bytes begin with.
fn change_of(bytes: &[u8]) -> Command
    requires { 7 + serial_bytes ≤ length bytes.now }
    ensures { result ≡ command_as (Some Change) bytes.now }
{
    Command {
        verb: bytes[0],
        origin: u16::read_le(bytes, 1),
        serial: Serial::read_le(bytes, 3),
        a: u16::read_le(bytes, 3 + SERIAL_BYTES),
        b: u16::read_le(bytes, 5 + SERIAL_BYTES),
    }
}

// The size of the entry that these bytes begin with, if they begin with one.
fn size_of(bytes: &[u8]) -> Option<usize>
    ensures { result ≡ size_of bytes.now }
{
    let (verb, others) = bytes.split_first()?;
    let size = match Verb::try_from(*verb).ok()? {
        Verb::Noop => 1,
        Verb::Add | Verb::Remove => {
            if *others.first()? > 31 {
                return None;
            }
            2
        }
        Verb::Change => 7 + SERIAL_BYTES,
    };
    (size <= bytes.len()).then_some(size)
}
