//! A line of the list as a command.

ghost use Rattle.listing.specs.Answers.{Field};
ghost use Rattle.listing.specs.Reading.{read_entry, member_of, change_of, ended};
ghost use Rattle.std.specs.Prelude.{◌≡◌};

use crate::cuts::Pieces;
use crate::numerals::read_number;
use command::Command;
use std::num::TryFromIntError;

// The verbs of an add and a remove: numbers with names, since a command may have any verb.
const ADD: u8 = 1;

const REMOVE: u8 = 2;

/// A line, without its end, as the command that it tells; well formed or not.
pub fn read_entry(line: &[u8]) -> Option<Command>
    ensures { result ≡ read_entry line.now }
{
    let mut words = Pieces::words(line);
    // By the bytes: whether a word is text need not be known, and the test of it takes a tenth of reading a list.
    match words.next()? {
        word if word == b"noop".as_slice() => end(words, Command::NOOP),
        word if word == b"add".as_slice() => read_member(words, ADD),
        word if word == b"remove".as_slice() => read_member(words, REMOVE),
        word if word == b"change".as_slice() => read_change(words),
        _ => None,
    }
}

// The director that follows an add or a remove, whose verb this is.
fn read_member(mut words: Pieces, verb: u8) -> Option<Command>
    ensures { result ≡ member_of verb words.entry }
{
    let a = read_field(&mut words)?;
    end(
        words,
        Command {
            verb,
            a,
            ..Command::NOOP
        },
    )
}

// The five fields of a change.
fn read_change(mut words: Pieces) -> Option<Command>
    ensures { result ≡ change_of words.entry }
{
    let command = Command {
        verb: read_field(&mut words)?,
        origin: read_field(&mut words)?,
        serial: read_field(&mut words)?,
        a: read_field(&mut words)?,
        b: read_field(&mut words)?,
    };
    end(words, command)
}

// The next word as a number of the field's type.
fn read_field<T: TryFrom<u64, Error = TryFromIntError>>(words: &mut Pieces) -> Option<T>
    ensures { Field T.try_from_gives words.old result words.new }
{
    read_number(words.next()?)
}

// The command, if no word is left.
fn end(mut words: Pieces, command: Command) -> Option<Command>
    ensures { result ≡ ended words.entry command }
{
    words.next().is_none().then_some(command)
}
