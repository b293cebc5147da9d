//! Layers over any machine: each is a machine itself, and decides which commands go lower.

#![tactic(auto)]

mod freezing;
mod once;
mod stacks;

pub use freezing::Freeze;
pub use once::OnceOnly;
pub use stacks::Stack;

#[cfg(test)]
mod tests {
    use crate::Stack;
    use command::Command;
    use machine::Machine;

    fn change(verb: u8, serial: u32, a: u16, b: u16) -> Command {
        Command {
            verb,
            origin: 3,
            serial,
            a,
            b,
        }
    }

    #[test]
    fn a_serial_that_was_denied_is_not_tried_again(rt: HostRuntime) {
        let mut stack = Stack::new();
        assert_eq!(rt; stack.apply(&change(48, 7, 0, 0)), 0);
        assert_eq!(rt; stack.apply(&change(16, 8, 5, 100)), 65_532);
        assert_eq!(rt; stack.apply(&change(49, 9, 0, 0)), 0);
        assert_eq!(rt; stack.apply(&change(16, 8, 5, 100)), 65_534);
        assert_eq!(rt; stack.apply(&change(16, 10, 5, 100)), 0);
        assert_eq!(rt; stack.weight(5), 100);
    }
}
