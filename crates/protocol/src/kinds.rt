//! The kinds of messages.

ghost use Rattle.protocol.specs.Messages.{kind_number, Decodes};
ghost use Rattle.std.specs.Prelude.{◌≡◌};

use std::fmt;
use thiserror::Error;

/// What a message says: PREPARE asks for a promise, PROMISE gives it, ACCEPT passes a command along the chain, ACKED
/// brings the acknowledgements to the ballot's owner, LEARN tells a settled command, FETCH asks for some.
#[derive(Clone, Copy, PartialEq, Eq, Hash, Debug)]
pub enum Kind {
    Prepare = 1,
    Promise = 2,
    Accept = 3,
    Acked = 4,
    Learn = 5,
    Fetch = 6,
}

/// A number that stands for no kind: 0, or one above 6.
#[derive(Clone, Copy, PartialEq, Eq, Hash, Debug, Error)]
#[error("no kind of message has number {0}")]
pub struct UnknownKind(pub u8);

impl Kind {
    /// The number of a kind, 1 to 6.
    pub fn number(self) -> u8
        ensures { result ≡ kind_number self }
    {
        self as u8
    }
}

impl TryFrom<u8> for Kind {
    type Error = UnknownKind;

    ghost try_from_gives = { Decodes };

    fn try_from(number: u8) -> Result<Kind, UnknownKind> {
        match number {
            1 => Ok(Kind::Prepare),
            2 => Ok(Kind::Promise),
            3 => Ok(Kind::Accept),
            4 => Ok(Kind::Acked),
            5 => Ok(Kind::Learn),
            6 => Ok(Kind::Fetch),
            _ => Err(UnknownKind(number)),
        }
    }
}

impl fmt::Display for Kind {
    fn fmt<W: fmt::Write>(&self, f: &mut fmt::Formatter<W>) -> fmt::Result {
        f.write_str(match self {
            Kind::Prepare => "PREPARE",
            Kind::Promise => "PROMISE",
            Kind::Accept => "ACCEPT",
            Kind::Acked => "ACKED",
            Kind::Learn => "LEARN",
            Kind::Fetch => "FETCH",
        })
    }
}

#[cfg(test)]
mod tests {
    use crate::{Kind, UnknownKind};
    use std::test::Fail;

    #[test]
    fn kinds_have_the_numbers_1_to_6(rt: HostRuntime) {
        assert_eq!(rt; Kind::Prepare.number(), 1);
        assert_eq!(rt; Kind::Fetch.number(), 6);
        assert_eq!(rt; Kind::try_from(3), Ok(Kind::Accept));
        assert_eq!(rt; Kind::try_from(6), Ok(Kind::Fetch));
    }

    #[test]
    fn other_numbers_are_no_kind(rt: HostRuntime) {
        assert_eq!(rt; Kind::try_from(0), Err(UnknownKind(0)));
        assert_eq!(rt; Kind::try_from(7), Err(UnknownKind(7)));
    }

    #[test]
    fn a_kind_is_told_by_its_name(rt: HostRuntime) -> Result<(), Fail> {
        let told = format!(in rt.alloc(); "{}; {}", Kind::Acked, UnknownKind(9))?;
        assert_eq!(rt; told.as_str(), "ACKED; no kind of message has number 9");
        Ok(())
    }
}
