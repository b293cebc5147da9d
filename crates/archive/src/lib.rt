//! The archive file of a year: written once, read for decades.

#![tactic(auto)]

mod entries;
mod lists;
mod reading;
mod writing;

ghost use Rattle.command.specs.Members.{valid_chain};
ghost use Rattle.std.specs.Prelude.{◌≡◌};

use command::Chain;
pub use entries::{Entries, Entry};
pub use lists::{ListRefusal, space_for, write_list};
pub use reading::{Broken, Reader};
pub use writing::{OpenArchive, Refusal, SealedArchive};

/// The four bytes that every archive file begins with.
pub const MARK: [u8; 4] = [0x48, 0x50, 0x41, 0x31];

// How many bytes the count of entries takes at the end of a file.
const COUNT_BYTES: usize = 2;

// How many bytes stand before the chain's members: the mark and the chain's length.
const HEADER_BYTES: usize = 5;

// Whether these members make a chain.
fn is_chain(members: &[u8]) -> bool
    ensures { result ≡ valid_chain members.now }
{
    Chain::new(members).is_ok()
}

#[cfg(test)]
mod tests {
    use crate::{Broken, ListRefusal, Reader, Refusal, write_list};
    use command::Command;
    use std::test::Fail;

    #[test]
    fn refusals_print_their_number_and_place(rt: HostRuntime) -> Result<(), Fail> {
        let heap = rt.alloc();
        let mark = format!(in heap; "{}", Broken::Mark)?;
        assert_eq!(rt;
            mark.as_str(),
            "refused 15 at 0: the file does not begin as an archive"
        );
        let entry = format!(in heap; "{}", Broken::Entry { offset: 8 })?;
        assert_eq!(rt;
            entry.as_str(),
            "refused 15 at 8: the entry that begins here is broken"
        );
        let full = ListRefusal::Entry {
            number: 65_536,
            refusal: Refusal::Full,
        };
        let full = format!(in heap; "{full}")?;
        assert_eq!(rt;
            full.as_str(),
            "refused 16 at entry 65536: an archive holds at most 65,535 entries"
        );
        let begin = format!(in heap; "{}", ListRefusal::Begin(Refusal::InvalidChain))?;
        assert_eq!(rt;
            begin.as_str(),
            "refused 11: a chain is 1 to 7 different directors from 0 to 31"
        );
        Ok(())
    }

    #[test]
    fn a_list_is_read_as_it_was_written(rt: HostRuntime) -> Result<(), Fail> {
        let remove = Command {
            verb: 2,
            a: 1,
            ..Command::NOOP
        };
        let mut area = [0u8; 64];
        let sealed = write_list(&mut area, &[0, 1, 2], &[Command::NOOP, remove])?;
        assert_eq!(rt; sealed.length(), 13);
        let reader = Reader::open(&area[0..13])?;
        assert_eq!(rt; reader.members(), [0, 1, 2].as_slice());
        assert_eq!(rt; reader.count(), 2);
        assert_eq!(rt; reader.entries().count(), 2);
        let commands = reader.entries().filter_map(|entry| entry.command());
        assert_eq!(rt; commands.last(), Some(remove));
        let first = reader.entry(1).map(|entry| (entry.offset, entry.bytes));
        assert_eq!(rt; first, Some((8, [0].as_slice())));
        assert_eq!(rt; reader.entry(0), None);
        assert_eq!(rt; reader.entry(3), None);
        Ok(())
    }
}
