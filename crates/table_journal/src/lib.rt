//! A journal in memory: a table of records that are all taken when it is made.

#![tactic(auto)]

mod refusals;
mod tables;

pub use refusals::TableRefusal;
pub use tables::TableJournal;

#[cfg(test)]
mod tests {
    use crate::{TableJournal, TableRefusal};
    use command::Command;
    use journal::Journal;
    use std::test::Fail;

    const CHANGE: Command = Command {
        verb: 16,
        origin: 1,
        serial: 2,
        a: 3,
        b: 4,
    };

    #[test]
    fn a_journal_has_as_many_slots_as_records(rt: HostRuntime) -> Result<(), Fail> {
        let heap = rt.alloc();
        assert_eq!(rt; TableJournal::new(heap, 1)?.capacity(), 1);
        assert_eq!(rt; TableJournal::new(heap, 70_000)?.capacity(), 60_000);
        assert_eq!(rt; TableRefusal::NoRecord.number(), Some(12));
        assert!(rt; TableJournal::new(heap, 0).is_err());
        Ok(())
    }

    // A caller that knows a journal by its trait alone.
    fn settles_first(journal: &mut dyn Journal, command: &Command) -> bool {
        journal.promise(3) && journal.put(1, 3, command) && journal.settle(command)
    }

    #[test]
    fn a_journal_is_written_by_its_trait_alone(rt: HostRuntime) -> Result<(), Fail> {
        let mut journal = TableJournal::new(rt.alloc(), 1)?;
        assert!(rt; settles_first(&mut journal, &CHANGE));
        assert_eq!(rt; journal.settled(1), CHANGE);
        assert!(rt; !settles_first(&mut journal, &CHANGE));
        Ok(())
    }

    #[test]
    fn a_refusal_tells_why(rt: HostRuntime) -> Result<(), Fail> {
        let told = format!(in rt.alloc(); "{}", TableRefusal::NoRecord)?;
        assert_eq!(rt; told.as_str(), "a journal has at least one record");
        Ok(())
    }

    #[test]
    fn a_settled_slot_has_no_open_entry(rt: HostRuntime) -> Result<(), Fail> {
        let mut journal = TableJournal::new(rt.alloc(), 9)?;
        assert!(rt; journal.promise(3));
        assert!(rt; !journal.promise(2));
        assert!(rt; journal.put(1, 3, &CHANGE));
        assert!(rt; !journal.put(9, 3, &CHANGE));
        assert!(rt; !journal.put(2, 4, &CHANGE));
        assert_eq!(rt; journal.open(1).ballot, 3);
        assert!(rt; journal.settle(&CHANGE));
        assert_eq!(rt; journal.settled(1), CHANGE);
        assert_eq!(rt; journal.open(1).ballot, 0);
        assert_eq!(rt; journal.open(9).ballot, 0);
        assert!(rt; journal.put(9, 3, &CHANGE));
        assert!(rt; !journal.put(10, 3, &CHANGE));
        assert_eq!(rt; journal.settled_count(), 1);
        Ok(())
    }
}
