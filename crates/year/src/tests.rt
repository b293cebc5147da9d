//! What the program says. The numbers, lines and offsets are fixed; the words after the last colon are for people.

use crate::jobs::PROGRAM;
use archive::{Broken, ListRefusal, Refusal};
use console::Named;
use listing::Fault;
use std::fmt::Display;
use std::test::Fail;
use yearbook::SealFault;

// The line that a refusal prints: `or_fail` prints the same `Named`.
fn said(rt: &HostRuntime, error: impl Display + Drop) -> Result<String, Fail> {
    let line = Named {
        name: PROGRAM,
        said: error,
    };
    Ok(format!(in rt.alloc(); "{line}")?)
}

#[test]
fn refusals_of_a_list(rt: HostRuntime) -> Result<(), Fail> {
    let chain = said(&rt, SealFault::List(Fault::InvalidChain))?;
    assert!(rt; chain.as_str().starts_with("year: refused 11 at line 1: "));
    let formed = said(&rt, SealFault::List(Fault::IllFormed { line: 7 }))?;
    assert!(rt; formed.as_str().starts_with("year: refused 5 at line 7: "));
    let unreadable = said(&rt, SealFault::List(Fault::Unreadable { line: 3 }))?;
    assert!(rt;
        unreadable
            .as_str()
            .starts_with("year: line 3 cannot be read: ")
    );
    let many = ListRefusal::Entry {
        number: 65_536,
        refusal: Refusal::Full,
    };
    let full = said(&rt, SealFault::Entry(many))?;
    assert!(rt;
        full.as_str()
            .starts_with("year: refused 16 at line 65537: ")
    );
    Ok(())
}

#[test]
fn refusals_of_a_file(rt: HostRuntime) -> Result<(), Fail> {
    assert_eq!(rt;
        said(&rt, Broken::Mark)?.as_str(),
        "year: refused 15 at 0: the file does not begin as an archive"
    );
    assert_eq!(rt;
        said(&rt, Broken::Chain)?.as_str(),
        "year: refused 15 at 4: the founding chain is not valid"
    );
    assert_eq!(rt;
        said(&rt, Broken::Entry { offset: 8 })?.as_str(),
        "year: refused 15 at 8: the entry that begins here is broken"
    );
    assert_eq!(rt;
        said(&rt, Broken::Count { offset: 11 })?.as_str(),
        "year: refused 15 at 11: the count is not that of the entries"
    );
    Ok(())
}
