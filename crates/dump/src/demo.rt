//! A small area: made, written to, dumped, and broken.

use crate::{PROGRAM, print};
use area_journal::AreaJournal;
use command::Command;
use console::{Named, fail};
use journal::Journal;

/// Makes a small area, writes to it, dumps it, breaks one byte, and prints the refusal that opening then gives.
// A refusal before that would be a fault of the program, and is said as one.
pub(crate) fn run(rt: &HostRuntime) -> anyhow::Result<()> {
    let area = vec![in rt.alloc(); 0u8; 168 + 12 * 20]?;
    let Ok(mut journal) = AreaJournal::open(area) else {
        return fail(rt, PROGRAM, "a new area did not open");
    };
    println!(rt; "a small area, written to:")?;
    write_some(&mut journal);
    print(rt, &journal)?;
    let mut broken = journal.release();
    if let Some(byte) = broken.get_mut(180) {
        *byte = 7;
    }
    match AreaJournal::open(broken) {
        Ok(_) => fail(rt, PROGRAM, "the broken area was opened"),
        Err(refused) => {
            let line = Named {
                name: PROGRAM,
                said: refused,
            };
            println!(rt; "with one byte changed: {line}")?;
            Ok(())
        }
    }
}

// Two settled slots, two open entries, and a promise.
fn write_some(journal: &mut AreaJournal) {
    let weight = Command {
        verb: 16,
        origin: 3,
        serial: 1,
        a: 5,
        b: 100,
    };
    let remove = Command {
        verb: 2,
        a: 1,
        ..Command::NOOP
    };
    let _ = journal.promise(32);
    let _ = journal.put(1, 32, &weight);
    let _ = journal.settle(&weight);
    let _ = journal.settle(&Command::NOOP);
    let _ = journal.promise(65);
    let _ = journal.put(3, 65, &remove);
    let _ = journal.put(5, 65, &weight);
}
