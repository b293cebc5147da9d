//! A journal in an area of bytes that is handed in with any content.

#![tactic(auto)]

mod areas;
mod checking;
mod faults;
mod journals;
mod layout;
mod parts;
mod writing;

pub use areas::AreaJournal;
pub use faults::{NotOpened, OpenFault};
pub use layout::SHORTEST;

#[cfg(test)]
mod tests {
    use crate::{AreaJournal, OpenFault};
    use command::Command;
    use journal::Journal;
    use std::test::Fail;

    fn fault_of(area: Vec<u8>) -> Option<OpenFault> {
        AreaJournal::open(area).err().map(|refused| refused.fault)
    }

    #[test]
    fn the_first_fault_is_told(rt: HostRuntime) -> Result<(), Fail> {
        let heap = rt.alloc();
        assert_eq!(rt; fault_of(vec![in heap; 0; 179]?), Some(OpenFault::NoRecord));
        assert_eq!(rt;
            fault_of(vec![in heap; 1; 180]?),
            Some(OpenFault::Broken { offset: 4 })
        );
        assert_eq!(rt; fault_of(vec![in heap; 0; 180]?), None);
        Ok(())
    }

    #[test]
    fn a_fault_is_told_in_words(rt: HostRuntime) -> Result<(), Fail> {
        let heap = rt.alloc();
        let short = format!(in heap; "{}", OpenFault::NoRecord)?;
        assert_eq!(rt;
            short.as_str(),
            "refused 12: the area has no space for a record"
        );
        let broken = format!(in heap; "{}", OpenFault::Broken { offset: 180 })?;
        assert_eq!(rt;
            broken.as_str(),
            "refused 13 at 180: the part that begins here is broken"
        );
        Ok(())
    }

    #[test]
    fn a_settled_slot_is_told_after_opening_again(rt: HostRuntime) -> Result<(), Fail> {
        let add = Command {
            verb: 1,
            a: 3,
            ..Command::NOOP
        };
        let Ok(mut first) = AreaJournal::open(vec![in rt.alloc(); 0; 192]?) else {
            assert!(rt; false);
            return Ok(());
        };
        assert!(rt; first.promise(5));
        assert!(rt; first.put(1, 5, &add));
        assert!(rt; first.settle(&add));
        assert_eq!(rt; first.area()[168], 1);
        let Ok(again) = AreaJournal::open(first.release()) else {
            assert!(rt; false);
            return Ok(());
        };
        assert_eq!(rt; again.promised(), 5);
        assert_eq!(rt; again.settled_count(), 1);
        assert_eq!(rt; again.settled(1).a, 3);
        Ok(())
    }
}
