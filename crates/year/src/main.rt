//! Seals a year's list of changes into an archive file, and reads it back.

#![tactic(auto)]

mod demo;
mod jobs;
mod show;
#[cfg(test)]
mod tests;

use layers::Stack;
use machine::Ledger;
use std::env;
use std::process::ExitCode;

const USAGE: &str = "usage: year | year seal LIST FILE | year read FILE | year show FILE [ledger]";

fn main(rt: HostRuntime) -> ExitCode {
    console::status(run(&rt))
}

fn run(rt: &HostRuntime) -> anyhow::Result<()> {
    let given = env::args(rt)?.collect::<Vec<_>>(rt.alloc())?;
    let words = given
        .iter()
        .skip(1)
        .map(|word| word.as_str())
        .collect::<Vec<_>>(rt.alloc())?;
    match words.as_slice() {
        [] => demo::run(rt),
        ["seal", list, file] => jobs::seal(rt, list, file),
        ["read", file] => jobs::read(rt, file),
        ["show", file] => jobs::show(rt, file, Stack::new()),
        ["show", file, "ledger"] => jobs::show(rt, file, Ledger::new()),
        _ => console::fail(rt, jobs::PROGRAM, USAGE),
    }
}
