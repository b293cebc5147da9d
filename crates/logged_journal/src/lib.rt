//! A layer over any journal that keeps a list of its writes, for tests and simulations.

#![tactic(auto)]

mod logged;
mod logs;

pub use logged::LoggedJournal;

#[cfg(test)]
mod tests {
    use crate::logs::Log;
    use journal::Write;
    use std::test::Fail;

    #[test]
    fn a_full_log_keeps_no_more(rt: HostRuntime) -> Result<(), Fail> {
        let mut log = Log::new(rt.alloc(), 2)?;
        log.keep(Write::Promise { ballot: 1 });
        log.keep(Write::Promise { ballot: 2 });
        assert!(rt; log.complete);
        log.keep(Write::Promise { ballot: 3 });
        assert!(rt; !log.complete);
        assert!(rt; log.writes.len() == 2);
        assert_eq!(rt; log.writes[1], Write::Promise { ballot: 2 });
        Ok(())
    }
}
