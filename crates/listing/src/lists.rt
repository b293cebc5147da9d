//! A whole text as a list.

ghost use Rattle.listing.specs.Answers.{Tells, list_of, members_told, chain_told};
ghost use Rattle.listing.specs.Reading.{read_chain, read_text, entries_from, some_directors};
ghost use Rattle.listing.specs.Law.{ReadsBack};
ghost use Rattle.std.specs.Prelude.{◌+◌, ◌^◌, ◌<◌, length, vec_items};

use crate::Fault;
use crate::cuts::Pieces;
use crate::entries::read_entry;
use crate::numerals::read_number;
use command::{Chain, Command};
use std::alloc::Global;

/// A year's list of changes: the founding chain, and the commands in their order.
#[derive(PartialEq, Eq, Debug, Drop)]
pub struct YearList {
    pub chain: Chain,
    pub commands: Vec<Command>,
}

/// The list that a text tells, or the first line that is at fault. A list that was written is read back as it was.
pub fn read_list(heap: Global, text: &[u8]) -> Result<YearList, Fault>
    ensures answer { Tells list_of result (read_text text.now) }
    ensures back { ReadsBack text.now result }
{
    let mut lines = Pieces::lines(text);
    let first = lines.next().ok_or(Fault::Unreadable { line: 1 })?;
    let chain = read_chain(heap, first)?;
    let commands = read_entries(heap, lines)?;
    Ok(YearList { chain, commands })
}

// The chain of the first line.
fn read_chain(heap: Global, line: &[u8]) -> Result<Chain, Fault>
    ensures { Tells (λ chain. chain) result (chain_told (read_chain line.now)) }
{
    let mut words = Pieces::words(line);
    if words.next() != Some(b"chain".as_slice()) {
        return Err(Fault::Unreadable { line: 1 });
    }
    let members = read_directors(heap, words)?;
    Ok(Chain::new(&members)?)
}

// The directors after the first line's first word. A number above a byte is no director's, and neither is the
// largest byte, which stands for it.
fn read_directors(heap: Global, words: Pieces) -> Result<Vec<u8>, Fault>
    ensures { Tells vec_items result (members_told (some_directors words.entry)) }
{
    let mut members = Vec::new(heap);
    for word in words {
        let number: u16 = read_number(word).ok_or(Fault::Unreadable { line: 1 })?;
        members.push(u8::try_from(number).unwrap_or(u8::MAX))?;
    }
    if members.is_empty() {
        return Err(Fault::Unreadable { line: 1 });
    }
    Ok(members)
}

// The commands of the lines after the first.
fn read_entries(heap: Global, lines: Pieces) -> Result<Vec<Command>, Fault>
    requires { 2 + length lines < 2 ^ 64 }
    ensures { Tells vec_items result (entries_from 2 lines.entry) }
{
    let mut commands = Vec::new(heap);
    for (line, bytes) in (2..).zip(lines) {
        let command = read_entry(bytes).ok_or(Fault::Unreadable { line })?;
        if !command.is_well_formed() {
            return Err(Fault::IllFormed { line });
        }
        commands.push(command)?;
    }
    Ok(commands)
}
