//! A year's list from its text to its archive file, and back.

#![tactic(auto)]

mod faults;
mod reads;
mod seals;

pub use faults::{ReadFault, SealFault};
pub use reads::text_of;
pub use seals::{SealedYear, seal_text};

#[cfg(test)]
mod tests {
    use crate::{ReadFault, SealFault, seal_text, text_of};
    use archive::{Broken, ListRefusal, Refusal};
    use listing::Fault;
    use std::test::Fail;

    #[test]
    fn faults_print_what_was_refused_and_where(rt: HostRuntime) -> Result<(), Fail> {
        let heap = rt.alloc();
        let formed = format!(in heap; "{}", SealFault::List(Fault::IllFormed { line: 7 }))?;
        assert_eq!(rt;
            formed.as_str(),
            "refused 5 at line 7: the command is not well formed"
        );
        let many = ListRefusal::Entry {
            number: 65_536,
            refusal: Refusal::Full,
        };
        let full = format!(in heap; "{}", SealFault::Entry(many))?;
        assert_eq!(rt;
            full.as_str(),
            "refused 16 at line 65537: an archive holds at most 65,535 entries"
        );
        let memory = format!(in heap; "{}", SealFault::Memory)?;
        assert_eq!(rt; memory.as_str(), "no memory is left");
        let count = format!(in heap; "{}", ReadFault::File(Broken::Count { offset: 11 }))?;
        assert_eq!(rt;
            count.as_str(),
            "refused 15 at 11: the count is not that of the entries"
        );
        Ok(())
    }

    #[test]
    fn a_text_is_sealed_and_read_back(rt: HostRuntime) -> Result<(), Fail> {
        let heap = rt.alloc();
        let year = seal_text(heap, b"chain 0 1 2\nnoop\nremove 1\n")?;
        assert_eq!(rt; year.entries, 2);
        assert_eq!(rt; year.file.len(), 13);
        assert_eq!(rt; year.chain.members(), [0, 2].as_slice());
        let text = text_of(heap, year.file.as_slice())?;
        assert_eq!(rt; text.as_str(), "chain 0 1 2\nnoop\nremove 1\n");
        Ok(())
    }
}
