//! What an archive file holds, for people.

use archive::{Entry, Reader};
use command::{Chain, Command, Verb};
use layers::Stack;
use listing::{Fault, write_chain};
use machine::{Ledger, Machine};
use std::alloc::Global;

/// A machine that a list is replayed into, and that is shown after it.
pub(crate) trait Table: Machine + Drop {
    /// Appends its numbers that are not 0, under a heading.
    fn write_numbers(&self, text: &mut String) -> Result<(), Fault>;
}

impl Table for Stack {
    fn write_numbers(&self, text: &mut String) -> Result<(), Fault> {
        writeln!(text, "weights that are not 0, after freeze and once-only:")?;
        write_rows(text, "backend", |backend| self.weight(backend))
    }
}

impl Table for Ledger {
    fn write_numbers(&self, text: &mut String) -> Result<(), Fault> {
        writeln!(text, "addresses held:")?;
        write_rows(text, "host", |host| self.holding(host))?;
        let free = self.free();
        writeln!(text, "  free: {free}")?;
        Ok(())
    }
}

// A row for each of the 64 whose number is not 0.
fn write_rows<F: Fn(u8) -> u16>(text: &mut String, name: &str, number_of: F) -> Result<(), Fault>
    requires { F.IsAlwaysCallable number_of }
{
    for place in 0..64 {
        let number = number_of(place);
        if number != 0 {
            writeln!(text, "  {name} {place}: {number}")?;
        }
    }
    Ok(())
}

/// The header, the entries, the chain after all of them, and the table that the list leads to.
pub(crate) fn text<T: Table>(heap: Global, reader: &Reader, mut table: T) -> Result<String, Fault> {
    let count = reader.count();
    let bytes = reader.file.len();
    let mut text = format!(in heap; "archive of {count} entries, {bytes} bytes, founding ")?;
    write_chain(&mut text, reader.members())?;
    write_entries(&mut text, reader, &mut table)?;
    table.write_numbers(&mut text)?;
    Ok(text)
}

// A line for each entry, which is replayed too, and the chain after all of them.
fn write_entries<M: Machine>(
    text: &mut String,
    reader: &Reader,
    machine: &mut M,
) -> Result<(), Fault> {
    let mut chain = Chain::new(reader.members())?;
    for (number, entry) in (1..=reader.count()).zip(reader.entries()) {
        if let Some(command) = entry.command() {
            write_line(text, number, &entry, &command)?;
            chain = chain.after(&command);
            replay(machine, &command);
        }
    }
    write!(text, "after the list: ")?;
    write_chain(text, chain.members())
}

// A machine gets only the commands that are for it.
fn replay<M: Machine>(machine: &mut M, command: &Command) {
    if Verb::try_from(command.verb) == Ok(Verb::Change) {
        let _ = machine.apply(command);
    }
}

// The line of one entry, numbered from 1.
fn write_line(
    text: &mut String,
    number: usize,
    entry: &Entry,
    command: &Command,
) -> Result<(), Fault> {
    let offset = entry.offset;
    let Command {
        verb,
        origin,
        serial,
        a,
        b,
    } = *command;
    write!(text, "{number:>6}  at {offset:<7} ")?;
    match Verb::try_from(verb) {
        Ok(Verb::Noop) => writeln!(text, "no-op")?,
        Ok(Verb::Add) => writeln!(text, "add director {a}")?,
        Ok(Verb::Remove) => writeln!(text, "remove director {a}")?,
        Ok(Verb::Change) => writeln!(
            text,
            "change by verb {verb}, origin {origin}, serial {serial}, a {a}, b {b}"
        )?,
        Err(_) => writeln!(text, "unknown verb {verb}")?,
    }
    Ok(())
}
