//! The text form of a year's list of changes: read into a chain and its commands, and written back.

#![tactic(auto)]

mod cuts;
mod entries;
mod faults;
mod lists;
mod numerals;
mod writes;

pub use entries::read_entry;
pub use faults::Fault;
pub use lists::{YearList, read_list};
pub use writes::{write_chain, write_entry};

#[cfg(test)]
mod tests {
    use crate::{Fault, read_entry, read_list, write_chain, write_entry};
    use command::Command;
    use std::alloc::Global;
    use std::test::Fail;

    fn fault_of(heap: Global, text: &[u8]) -> Option<Fault> {
        read_list(heap, text).err()
    }

    #[test]
    fn the_first_line_at_fault_is_told(rt: HostRuntime) {
        let heap = rt.alloc();
        assert_eq!(rt;
            fault_of(heap, b"chain 1 2 3\nnoop\nadd 40\nnope\n"),
            Some(Fault::IllFormed { line: 3 })
        );
        assert_eq!(rt;
            fault_of(heap, b"chain 1 2\nchange 5 0 0 0 0\n"),
            Some(Fault::IllFormed { line: 2 })
        );
        assert_eq!(rt;
            fault_of(heap, b"chain 1 2\n\nnoop\n"),
            Some(Fault::Unreadable { line: 2 })
        );
        assert_eq!(rt;
            fault_of(heap, b"chain 1 2\nnoop\r\n"),
            Some(Fault::Unreadable { line: 2 })
        );
        assert_eq!(rt;
            fault_of(heap, b"chain 1 1\nnope\n"),
            Some(Fault::InvalidChain)
        );
        assert_eq!(rt;
            fault_of(heap, b"chain 1 2 3 4 5 6 7 8"),
            Some(Fault::InvalidChain)
        );
        assert_eq!(rt; fault_of(heap, b"chain 65535"), Some(Fault::InvalidChain));
        assert_eq!(rt;
            fault_of(heap, b"chain 65536"),
            Some(Fault::Unreadable { line: 1 })
        );
        assert_eq!(rt;
            fault_of(heap, b"chain\n"),
            Some(Fault::Unreadable { line: 1 })
        );
        assert_eq!(rt; fault_of(heap, b""), Some(Fault::Unreadable { line: 1 }));
    }

    #[test]
    fn the_last_line_may_lack_its_end(rt: HostRuntime) -> Result<(), Fail> {
        let list = read_list(rt.alloc(), b"chain 4 0 31\nnoop\nadd 7\nremove 4")?;
        assert_eq!(rt; list.commands.len(), 3);
        assert_eq!(rt; list.chain.members().len(), 3);
        Ok(())
    }

    #[test]
    fn widths_and_zeros(rt: HostRuntime) {
        let largest = Command {
            verb: 255,
            origin: 65535,
            serial: 4294967295,
            a: 65535,
            b: 65535,
        };
        assert_eq!(rt;
            read_entry(b"change 255 65535 4294967295 65535 65535"),
            Some(largest)
        );
        assert_eq!(rt; read_entry(b"change 256 0 0 0 0"), None);
        assert_eq!(rt; read_entry(b"change 16 0 18446744073709551616 0 0"), None);
        assert_eq!(rt; read_entry(b"change 16 65536 0 0 0"), None);
        assert_eq!(rt; read_entry(b"add 07"), None);
        assert_eq!(rt; read_entry(b"add  7"), None);
        assert_eq!(rt; read_entry(b"add 7 "), None);
        assert_eq!(rt;
            read_entry(b"add 0"),
            Some(Command {
                verb: 1,
                ..Command::NOOP
            })
        );
    }

    #[test]
    fn faults_are_told(rt: HostRuntime) -> Result<(), Fail> {
        let heap = rt.alloc();
        assert_eq!(rt;
            format!(in heap; "{}", Fault::InvalidChain)?.as_str(),
            "refused 11 at line 1: a chain is 1 to 7 different directors from 0 to 31"
        );
        assert_eq!(rt;
            format!(in heap; "{}", Fault::IllFormed { line: 7 })?.as_str(),
            "refused 5 at line 7: the command is not well formed"
        );
        assert_eq!(rt;
            format!(in heap; "{}", Fault::Unreadable { line: 3 })?.as_str(),
            "line 3 cannot be read: see docs/list-format.md for the form of a list"
        );
        assert_eq!(rt;
            format!(in heap; "{}", Fault::Memory)?.as_str(),
            "no memory is left"
        );
        Ok(())
    }

    #[test]
    fn lists_are_written(rt: HostRuntime) -> Result<(), Fail> {
        let mut out = String::new(rt.alloc());
        write_chain(&mut out, &[3, 31, 0])?;
        write_entry(&mut out, &Command::NOOP)?;
        write_entry(
            &mut out,
            &Command {
                verb: 2,
                a: 31,
                ..Command::NOOP
            },
        )?;
        write_entry(
            &mut out,
            &Command {
                verb: 16,
                origin: 1,
                serial: 20,
                a: 300,
                ..Command::NOOP
            },
        )?;
        assert!(rt; out.as_str() == "chain 3 31 0\nnoop\nremove 31\nchange 16 1 20 300 0\n");
        Ok(())
    }
}
