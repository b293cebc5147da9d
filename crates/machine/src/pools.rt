//! The pool: weights of backends.

ghost use Rattle.machine.specs.Denials.{told};
ghost use Rattle.machine.specs.Pools.{pool_start, pool_rule, weight, WeightsBounded};
ghost use Rattle.std.specs.Prelude.{◌≡◌, List, ℕ};

use crate::{Denial, Machine};
use command::Command;
use std::marker::Model;

/// The weights of backends 0 to 63.
#[derive(Clone, Copy, PartialEq, Eq, Debug)]
pub struct Pool {
    weights: [u16; 64],
}

// A pool is seen as the list of its weights.
impl Model for Pool {
    ghost Value = { List ℕ };

    ghost view = { λ p. p.weights };

    ghost inverse = { λ s. record { weights = s } };
}

// A command may hold any verb, and a machine does nothing by those that it does not know: so the two that it knows are
// numbers with names. This one sets the weight of backend a to b.
const SET: u8 = 16;

// The verb that sets the weight of backend a to 0.
const DRAIN: u8 = 17;

const HEAVIEST: u16 = 1_000;

impl Pool {
    /// The pool in which every weight is 0. Whatever commands it gets, no weight ever exceeds 1,000.
    pub fn new() -> Pool
        ensures start { result ≡ pool_start }
        ensures bounded { WeightsBounded }
    {
        Pool { weights: [0; 64] }
    }

    /// The weight of a backend; 0 for a number above 63, which is no backend's.
    pub fn weight(&self, backend: u8) -> u16
        ensures { result ≡ weight self.now backend }
    {
        self.weights.get(backend as usize).copied().unwrap_or(0)
    }

    // Changes a weight, and gives the old one.
    fn change(&mut self, command: &Command) -> Result<u16, Denial>
        ensures next { self.new ≡ (pool_rule self.old command.now).0 }
        ensures answer { told result ≡ (pool_rule self.old command.now).1 }
    {
        let backend = command.a as usize;
        let old = *self.weights.get(backend).ok_or(Denial::NoEffect)?;
        self.weights[backend] = match command.verb {
            SET if command.b <= HEAVIEST => command.b,
            DRAIN if command.b == 0 => 0,
            _ => return Err(Denial::NoEffect),
        };
        Ok(old)
    }
}

impl Default for Pool {
    ghost is_default = { λ p. p ≡ pool_start };

    fn default() -> Pool {
        Pool::new()
    }
}

impl Machine for Pool {
    ghost state = { λ p. p };

    ghost start = { pool_start };

    ghost rule = { pool_rule };

    fn apply(&mut self, command: &Command) -> u16 {
        self.change(command).unwrap_or_else(Denial::answer)
    }

    fn reset(&mut self) {
        *self = Pool::new();
    }
}
