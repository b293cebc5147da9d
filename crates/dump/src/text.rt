//! A journal as text, newest slot first.

use journal::{Journal, SPAN};
use listing::{Fault, write_entry};
use std::alloc::Global;

/// Capacity, promised ballot with its owner, settled count, open entries, settled commands.
pub(crate) fn of<J: Journal>(heap: Global, journal: &J) -> Result<String, Fault> {
    let mut text = String::new(heap);
    let promised = journal.promised();
    let settled = journal.settled_count();
    writeln!(text, "capacity {}", journal.capacity())?;
    writeln!(
        text,
        "promised ballot {promised} of director {}",
        promised % 32
    )?;
    writeln!(text, "settled {settled}")?;
    writeln!(text, "open, newest slot first:")?;
    for ahead in (1..=SPAN as u32).rev() {
        write_open(&mut text, journal, settled + ahead)?;
    }
    writeln!(text, "settled, newest slot first:")?;
    for slot in (1..=settled).rev() {
        write!(text, "  slot {slot}: ")?;
        write_entry(&mut text, &journal.settled(slot))?;
    }
    Ok(text)
}

// The open entry of a slot, unless it is blank.
fn write_open<J: Journal>(text: &mut String, journal: &J, slot: u32) -> Result<(), Fault> {
    let entry = journal.open(slot);
    let ballot = entry.ballot;
    if ballot == 0 {
        return Ok(());
    }
    write!(
        text,
        "  slot {slot}, ballot {ballot} of director {}: ",
        ballot % 32
    )?;
    write_entry(text, &entry.command)
}
