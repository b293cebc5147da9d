//! The chain as a value that cannot be wrong: 1 to 7 different directors, each of them among those who were ever
//! members.

use crate::DirectorSet;
use std::marker::Model;
use thiserror::Error;

/// A chain of directors in its order, and the set of all who were ever members of it.
// Seven places and a count, and no vector, of fixed room or not: a chain is copied in every call, and no call may need
// memory.
#[derive(Clone, Copy, PartialEq, Eq, Debug)]
pub struct Chain {
    pub(crate) places: [u8; 7],
    pub(crate) count: usize,
    pub(crate) ever: DirectorSet,
}

impl Model for Chain {
    ghost use Rattle.command.specs.Members.{Membership};

    ghost Value = { Membership };

    ghost use Rattle.command.specs.Places.{membership, places_of, IsChain, gives_back};

    ghost view = { membership };

    ghost invariant = { IsChain };

    ghost inverse = { places_of };

    ghost inverse_ok = { gives_back };
}

/// Why no chain was made (refusal 11): the list has none or more than 7, a number above 31, or one twice.
#[derive(Clone, Copy, PartialEq, Eq, Hash, Debug, Error)]
#[error("a chain is 1 to 7 different directors from 0 to 31")]
pub struct InvalidChain;
