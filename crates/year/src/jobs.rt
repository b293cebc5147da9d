//! What the program does, word by word of its command line.

use crate::show;
use crate::show::Table;
use archive::Reader;
use console::{or_fail, or_fail_at};
use listing::{Fault, write_chain};
use std::alloc::Global;
use std::fs;
use yearbook::{SealedYear, seal_text, text_of};

/// The name that the program's refusals begin with.
pub(crate) const PROGRAM: &str = "year";

/// Seals the list in one file into another, and says what was sealed.
pub(crate) fn seal(rt: &HostRuntime, list: &str, file: &str) -> anyhow::Result<()> {
    let text = load(rt, list)?;
    let year = or_fail(rt, PROGRAM, seal_text(rt.alloc(), text.as_slice()))?;
    fs::write(rt, file, year.file.as_slice())?;
    print_sealed(rt, &year)
}

/// Prints the list that a file holds, as text.
pub(crate) fn read(rt: &HostRuntime, file: &str) -> anyhow::Result<()> {
    let bytes = load(rt, file)?;
    let text = or_fail(rt, PROGRAM, text_of(rt.alloc(), bytes.as_slice()))?;
    rt.print(text.as_str())?;
    Ok(())
}

/// Prints what a file holds, for people, with the table that its list leads to.
pub(crate) fn show<T: Table>(rt: &HostRuntime, file: &str, table: T) -> anyhow::Result<()> {
    let bytes = load(rt, file)?;
    let reader = or_fail(rt, PROGRAM, Reader::open(bytes.as_slice()))?;
    print_shown(rt, &reader, table)
}

/// Prints the header, the entries, the chain and the table of a file that was opened.
pub(crate) fn print_shown<T: Table>(
    rt: &HostRuntime,
    reader: &Reader,
    table: T,
) -> anyhow::Result<()> {
    let text = or_fail(rt, PROGRAM, show::text(rt.alloc(), reader, table))?;
    rt.print(text.as_str())?;
    Ok(())
}

/// Prints one line on what was sealed.
pub(crate) fn print_sealed(rt: &HostRuntime, year: &SealedYear) -> anyhow::Result<()> {
    let line = or_fail(rt, PROGRAM, sealed_line(rt.alloc(), year))?;
    rt.print(line.as_str())?;
    Ok(())
}

// One line on what was sealed.
fn sealed_line(heap: Global, year: &SealedYear) -> Result<String, Fault> {
    let entries = year.entries;
    let bytes = year.file.len();
    let mut line = format!(in heap; "sealed {entries} entries, {bytes} bytes, ")?;
    write_chain(&mut line, year.chain.members())?;
    Ok(line)
}

// The bytes of a file; where it cannot be read that is said.
fn load(rt: &HostRuntime, path: &str) -> anyhow::Result<Vec<u8>> {
    or_fail_at(rt, PROGRAM, path, fs::read(rt, path))
}
