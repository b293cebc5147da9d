//! A small year, sealed into a file, read back and compared.

use crate::jobs;
use crate::jobs::PROGRAM;
use archive::Reader;
use console::{Named, fail};
use layers::Stack;
use machine::Ledger;
use std::fs;
use yearbook::{seal_text, text_of};

const FILE: &str = "small-year.archive";

const LIST: &str = "chain 0 1 2
change 16 3 1 5 100
change 16 3 2 5 40
noop
add 3
remove 1
change 17 3 3 5 0
change 16 4 1 7 250
change 255 65535 4294967295 65535 65535
";

/// Seals the small year, reads it back, and prints what was done.
// A refusal here would be a fault of the program, and is said as one.
pub(crate) fn run(rt: &HostRuntime) -> anyhow::Result<()> {
    let heap = rt.alloc();
    println!(rt; "a small year, as text:")?;
    rt.print(LIST)?;
    let Ok(year) = seal_text(heap, LIST.as_bytes()) else {
        return fail(rt, PROGRAM, "the small year was not sealed");
    };
    jobs::print_sealed(rt, &year)?;
    fs::write(rt, FILE, year.file.as_slice())?;
    let mut file = fs::read(rt, FILE)?;
    if file != year.file {
        return fail(rt, PROGRAM, "the file is not what was written");
    }
    println!(rt; "wrote {FILE} and read the same bytes back")?;
    let Ok(text) = text_of(heap, file.as_slice()) else {
        return fail(rt, PROGRAM, "the file was refused");
    };
    if text.as_str() != LIST {
        return fail(rt, PROGRAM, "the text is not what was sealed");
    }
    println!(rt; "its text is the text that was sealed")?;
    show_and_break(rt, &mut file)
}

// Prints the file for people, then breaks the verb of its third entry and prints the refusal that opening then gives.
fn show_and_break(rt: &HostRuntime, file: &mut Vec<u8>) -> anyhow::Result<()> {
    if let Ok(reader) = Reader::open(file.as_slice()) {
        jobs::print_shown(rt, &reader, Stack::new())?;
        jobs::print_shown(rt, &reader, Ledger::new())?;
    }
    if let Some(byte) = file.get_mut(30) {
        *byte = 3;
    }
    match Reader::open(file.as_slice()) {
        Ok(_) => fail(rt, PROGRAM, "the broken file was read"),
        Err(broken) => {
            let line = Named {
                name: PROGRAM,
                said: broken,
            };
            println!(rt; "with one byte changed: {line}")?;
            Ok(())
        }
    }
}
