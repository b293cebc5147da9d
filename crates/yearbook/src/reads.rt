//! From an archive file to its list's text.

ghost use Rattle.std.specs.Prelude.{◌≡◌, ◌++◌, string_bytes, MatchResult, OnOk};
ghost use Rattle.yearbook.specs.Years.{Told, Unread, lines_left};

use crate::ReadFault;
use archive::{Entries, Reader};
use listing::{Fault, write_chain, write_entry};
use std::alloc::Global;

/// The text of the list that an archive file holds. Sealing that text gives the file again.
pub fn text_of(heap: Global, file: &[u8]) -> Result<String, ReadFault>
    ensures { MatchResult result (λ t. Told file.now (string_bytes t)) (Unread file.now) }
{
    let reader = Reader::open(file)?;
    let mut text = String::new(heap);
    write_chain(&mut text, reader.members())?;
    write_entries(&mut text, reader.entries())?;
    Ok(text)
}

// Appends the lines of the entries that are to come.
fn write_entries(text: &mut String, entries: Entries) -> Result<(), Fault>
    ensures { OnOk result (string_bytes text.new
        ≡ string_bytes text.old ++ lines_left entries.entry) }
{
    for entry in entries {
        if let Some(command) = entry.command() {
            write_entry(text, &command)?;
        }
    }
    Ok(())
}
