//! Why a call is refused.

ghost use Rattle.protocol.specs.Refusals.{refusal_number};
ghost use Rattle.std.specs.Prelude.{◌≡◌};

use thiserror::Error;

/// Why a director refuses a call. A refused call changes nothing.
#[derive(Clone, Copy, PartialEq, Eq, Hash, Debug, Error)]
pub enum Refusal {
    /// The message table has fewer than 24 places.
    #[error("the message table has fewer than 24 places")]
    ShortTable = 1,
    /// The message is addressed to another director.
    #[error("the message is addressed to another director")]
    NotAddressee = 2,
    /// The message is malformed, or the peer is no other director.
    #[error("the message is malformed, or the peer is no other director")]
    Malformed = 3,
    /// The message's ballot or slot does not fit what the director holds now.
    #[error("the ballot or slot does not fit what the director holds now")]
    Stale = 4,
    /// The command is not well formed.
    #[error("the command is not well formed")]
    IllFormed = 5,
    /// The director does not stand.
    #[error("the director does not stand")]
    NotStanding = 6,
    /// The line holds 16 commands.
    #[error("the line holds 16 commands")]
    LineFull = 7,
    /// Every slot of the journal is settled.
    #[error("every slot of the journal is settled")]
    JournalFull = 8,
    /// The director is no member of the chain for the next slot.
    #[error("the director is no member of the chain for the next slot")]
    NotMember = 9,
    /// No ballot of this director is left above the promised one.
    #[error("no ballot of this director is left above the promised one")]
    NoBallot = 10,
    /// The number is above 31, or the founding chain is not valid.
    #[error("the number is above 31, or the founding chain is not valid")]
    InvalidDirector = 11,
}

impl Refusal {
    /// The number of this refusal, 1 to 11.
    pub fn number(self) -> u8
        ensures { result ≡ refusal_number self }
    {
        self as u8
    }
}

#[cfg(test)]
mod tests {
    use crate::Refusal;
    use std::test::Fail;

    #[test]
    fn refusals_have_the_numbers_1_to_11(rt: HostRuntime) {
        assert_eq!(rt; Refusal::ShortTable.number(), 1);
        assert_eq!(rt; Refusal::Stale.number(), 4);
        assert_eq!(rt; Refusal::InvalidDirector.number(), 11);
    }

    #[test]
    fn a_refusal_tells_why(rt: HostRuntime) -> Result<(), Fail> {
        let told = format!(in rt.alloc(); "{}", Refusal::LineFull)?;
        assert_eq!(rt; told.as_str(), "the line holds 16 commands");
        Ok(())
    }
}
