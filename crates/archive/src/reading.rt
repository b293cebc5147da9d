//! The reader: it borrows the file, checks every part once, and then tells what the file holds.

ghost use Rattle.std.specs.Prelude.{◌≡◌, ℕ, List, length, None};
ghost use Rattle.archive.specs.Layout.{Archive};
ghost use Rattle.archive.specs.Reading.{refusal_number, offset_of, fault, scanned, scan_all, counted};
ghost use Rattle.archive.specs.Reading.{members_of, start_of, count_at, body_of, entry_at, entry_of};
ghost use Rattle.command.specs.declared.Command.{Command};

use crate::{COUNT_BYTES, Entries, Entry, HEADER_BYTES, MARK, is_chain};
use octets::Number;
use thiserror::Error;

// The length of the shortest file: mark, a chain of one member, no entries, and the count.
const SHORTEST: usize = 8;

/// A file that was found whole.
#[derive(Clone, Copy, Debug)]
pub struct Reader<'a> {
    pub file: &'a [u8],
    count: usize,
    ghost whole: { fault file.now ≡ None },
    ghost counted: { count ≡ length (scanned file.now).commands },
}

/// Why a file was refused (refusal 15): the first of its parts that is broken.
#[derive(Clone, Copy, PartialEq, Eq, Hash, Debug, Error)]
pub enum Broken {
    #[error("refused 15 at 0: the file does not begin as an archive")]
    Mark,
    #[error("refused 15 at 4: the founding chain is not valid")]
    Chain,
    #[error("refused 15 at {offset}: the entry that begins here is broken")]
    Entry { offset: usize },
    #[error("refused 15 at {offset}: the count is not that of the entries")]
    Count { offset: usize },
}

impl Broken {
    /// The number of this refusal.
    pub fn number(self) -> u8
        ensures { result ≡ refusal_number self }
    {
        15
    }

    /// The offset where the broken part begins.
    pub fn offset(self) -> usize
        ensures { result ≡ offset_of self }
    {
        match self {
            Broken::Mark => 0,
            Broken::Chain => 4,
            Broken::Entry { offset } | Broken::Count { offset } => offset,
        }
    }
}

impl<'a> Reader<'a> {
    ghost use Rattle.archive.specs.Readers.{shown, Opens, Exact};

    /// Checks mark, chain, entries and count, in this order. Refusal 15 tells the first broken part.
    #[tactic(auto, using(crate::proofs::Files::exact_file))]
    pub fn open(file: &'a [u8]) -> Result<Reader<'a>, Broken>
        ensures opens { Opens file.now result }
        ensures exact { Exact file.now }
    {
        if file.len() < SHORTEST || !file.starts_with(&MARK) {
            return Err(Broken::Mark);
        }
        let end = file.len() - COUNT_BYTES;
        let start = HEADER_BYTES + file[4] as usize;
        if start > end || !is_chain(&file[HEADER_BYTES..start]) {
            return Err(Broken::Chain);
        }
        let rest = &file[start..end];
        let count = count_entries(Entries { rest, end })?;
        if u16::read_le(file, end) as usize != count {
            return Err(Broken::Count { offset: end });
        }
        Ok(Reader { file, count })
    }

    /// The founding chain's members, a part of the file.
    pub fn members(&self) -> &'a [u8]
        ensures { result.now ≡ members_of self.now.file.now }
    {
        &self.file[HEADER_BYTES..self.start()]
    }

    /// How many entries the file has.
    pub fn count(&self) -> usize
        ensures { result ≡ length (scanned self.now.file.now).commands }
    {
        self.count
    }

    /// All entries in their order.
    pub fn entries(&self) -> Entries<'a>
        ensures rest { result.rest.now ≡ body_of self.now.file.now }
        ensures end { result.end ≡ count_at self.now.file.now }
    {
        let end = self.file.len() - COUNT_BYTES;
        let rest = &self.file[self.start()..end];
        Entries { rest, end }
    }

    // Where the entries begin.
    fn start(&self) -> usize
        ensures { result ≡ start_of self.now.file.now }
    {
        HEADER_BYTES + self.file[4] as usize
    }

    /// Entry n, counted from 1, as its offset and its bytes, a part of the file, if there is one.
    pub fn entry(&self, n: usize) -> Option<Entry<'a>>
        ensures answer { shown result
            ≡ entry_at n (count_at self.now.file.now) (body_of self.now.file.now) }
        ensures meaning { (ms : List ℕ) (cs : List Command) → Archive self.now.file.now ms cs
            → shown result ≡ entry_of ms cs n }
    {
        self.entries().nth(n.checked_sub(1)?)
    }
}

// How many entries are to come, or the first broken one.
fn count_entries(entries: Entries) -> Result<usize, Broken>
    ensures { result ≡ counted (scan_all entries.entry.end entries.entry.rest.now) }
{
    let mut left = entries;
    let mut count = 0;
    // Not `count()`, which takes the iterator: what is left after the last whole entry is looked at below.
    while left.next().is_some() {
        count += 1;
    }
    if !left.rest.is_empty() {
        return Err(Broken::Entry {
            offset: left.offset(),
        });
    }
    Ok(count)
}
