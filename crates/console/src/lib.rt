//! How the programs end: a refusal is one line on the error stream, and the status tells that there was one.

#![tactic(auto)]

ghost use Rattle.std.specs.Prelude.{◌≡◌, IsErr, MatchResult, Ok};
ghost use Rattle.console.specs.Endings.{status_of, named_text};

use anyhow::anyhow;
use std::fmt;
use std::fmt::Display;
use std::process::ExitCode;

/// The status that a program ends with. What went wrong was said where it was found, so nothing is printed here.
pub fn status(outcome: anyhow::Result<()>) -> ExitCode
    ensures { result.status ≡ status_of outcome }
{
    match outcome {
        Ok(()) => ExitCode::SUCCESS,
        Err(_) => ExitCode::FAILURE,
    }
}

// The error is said here and not passed up to be said at the end: a print that fails is to end a program with no word. So each
// call names the runtime and the program.

/// What was done, or else its error, which is said on the error stream. A line that cannot be printed is an error too.
pub fn or_fail<T: Drop, E: Display + Drop>(
    rt: &impl Eprint,
    program: &str,
    done: Result<T, E>,
) -> anyhow::Result<T>
    ensures { MatchResult done (λ value. result ≡ Ok value) (λ _. IsErr result) }
{
    match done {
        Ok(value) => Ok(value),
        Err(error) => {
            rt.eprintln(Named {
                name: program,
                said: error,
            })?;
            Err(anyhow!("refused"))
        }
    }
}

/// What was done with a file, or else its error, which is said with the name of the file.
pub fn or_fail_at<T: Drop, E: Display + Drop>(
    rt: &impl Eprint,
    program: &str,
    path: &str,
    done: Result<T, E>,
) -> anyhow::Result<T>
    ensures { MatchResult done (λ value. result ≡ Ok value) (λ _. IsErr result) }
{
    match done {
        Ok(found) => Ok(found),
        Err(error) => or_fail(
            rt,
            program,
            Err(Named {
                name: path,
                said: error,
            }),
        ),
    }
}

/// Says why the program ends.
pub fn fail(rt: &impl Eprint, program: &str, said: &str) -> anyhow::Result<()>
    ensures { IsErr result }
{
    or_fail(rt, program, Err(said))
}

/// Something said under a name, as `name: words`. The line of a refusal is an error under the program's name; an error
/// at a file is said under the file's name first.
#[derive(Drop)]
pub struct Named<'a, E> {
    pub name: &'a str,
    pub said: E,
}

impl<E: Display> Display for Named<'_, E> {
    ghost output = { named_text E.output };

    fn fmt<W: fmt::Write>(&self, f: &mut fmt::Formatter<W>) -> fmt::Result {
        write!(f, "{}: {}", self.name, self.said)
    }
}

#[cfg(test)]
mod tests {
    use crate::{fail, or_fail, or_fail_at, status};
    use std::alloc::Global;
    use std::cell::RefCell;
    use std::fmt::Display;
    use std::io;
    use std::process::ExitCode;
    use std::test::Fail;

    // An error stream that keeps what is printed.
    #[derive(Drop)]
    struct Kept {
        heap: Global,
        text: RefCell<String>,
    }

    impl Eprint for Kept {
        fn eprint<D: Display + Drop>(&self, value: D) -> io::Result<()> {
            let printed = format!(in self.heap; "{value}")?;
            self.text.try_borrow_mut()?.push_str(printed.as_str())?;
            Ok(())
        }

        fn eprintln<D: Display + Drop>(&self, value: D) -> io::Result<()> {
            self.eprint(value)?;
            self.text.try_borrow_mut()?.push('\n')?;
            Ok(())
        }
    }

    #[test]
    fn a_refusal_is_one_line(rt: HostRuntime) -> Result<(), Fail> {
        let heap = rt.alloc();
        let kept = Kept {
            heap,
            text: RefCell::new(String::new(heap)),
        };
        assert!(rt; fail(&kept, "year", "usage").is_err());
        assert!(rt; fail(&kept, "dump", "no usage").is_err());
        let refused: Result<u8, &str> = Err("refused 15 at 0");
        assert!(rt; or_fail(&kept, "year", refused).is_err());
        assert!(rt; or_fail(&kept, "dump", refused).is_err());
        assert!(rt; or_fail_at(&kept, "year", "a file", refused).is_err());
        assert!(rt; or_fail_at(&kept, "dump", "an area", refused).is_err());
        let done: Result<u8, &str> = Ok(7);
        assert_eq!(rt; or_fail(&kept, "dump", done)?, 7);
        assert_eq!(rt; or_fail_at(&kept, "year", "a file", done)?, 7);
        let text = kept.text.into_inner();
        assert_eq!(rt;
            text.as_str(),
            "year: usage\n\
             dump: no usage\n\
             year: refused 15 at 0\n\
             dump: refused 15 at 0\n\
             year: a file: refused 15 at 0\n\
             dump: an area: refused 15 at 0\n"
        );
        Ok(())
    }

    #[test]
    fn what_was_done_goes_on(rt: HostRuntime) -> Result<(), Fail> {
        let done: Result<u8, &str> = Ok(7);
        assert_eq!(rt; or_fail(&rt, "year", done)?, 7);
        assert_eq!(rt; or_fail_at(&rt, "year", "list", done)?, 7);
        let not_done: Result<u8, &str> = Err("no such file");
        assert!(rt; or_fail(&rt, "year", not_done).is_err());
        assert!(rt; or_fail_at(&rt, "year", "list", not_done).is_err());
        Ok(())
    }

    #[test]
    fn a_refusal_ends_with_status_1(rt: HostRuntime) {
        assert!(rt; status(Ok(())) == ExitCode::SUCCESS);
        assert!(rt; status(fail(&rt, "year", "refused 15 at 0")) == ExitCode::FAILURE);
    }
}
