//! Prints a journal's byte area for a maintainer.

#![tactic(auto)]

mod demo;
mod text;

use area_journal::AreaJournal;
use console::{fail, or_fail, or_fail_at, status};
use std::process::ExitCode;
use std::{env, fs};

/// The name that the program's refusals begin with.
pub(crate) const PROGRAM: &str = "dump";

const USAGE: &str = "usage: dump | dump FILE";

fn main(rt: HostRuntime) -> ExitCode {
    status(run(&rt))
}

fn run(rt: &HostRuntime) -> anyhow::Result<()> {
    let given = env::args(rt)?.collect::<Vec<_>>(rt.alloc())?;
    match given.as_slice() {
        [] | [_] => demo::run(rt),
        [_, file] => dump(rt, file.as_str()),
        _ => fail(rt, PROGRAM, USAGE),
    }
}

// Opens the area in a file and prints it.
fn dump(rt: &HostRuntime, file: &str) -> anyhow::Result<()> {
    let area = or_fail_at(rt, PROGRAM, file, fs::read(rt, file))?;
    let journal = or_fail(rt, PROGRAM, AreaJournal::open(area))?;
    print(rt, &journal)
}

/// Prints a journal.
pub(crate) fn print(rt: &HostRuntime, journal: &AreaJournal) -> anyhow::Result<()> {
    let text = or_fail(rt, PROGRAM, text::of(rt.alloc(), journal))?;
    rt.print(text.as_str())?;
    Ok(())
}
