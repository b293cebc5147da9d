//! The stack: once-only over freeze over the pool.

ghost use Rattle.layers.specs.Stacks.{stack_state, stack_start, stack_pool, StackBounded};
ghost use Rattle.machine.specs.Pools.{weight};
ghost use Rattle.std.specs.Prelude.{◌≡◌};

use crate::{Freeze, OnceOnly};
use machine::Pool;

/// Each command acts once at most, nothing acts while frozen, and what acts sets weights.
pub type Stack = OnceOnly<Freeze<Pool>>;

impl OnceOnly<Freeze<Pool>> {
    /// The stack at its start: nothing kept, not frozen, all weights 0. Whatever commands it gets, no weight exceeds
    /// 1,000.
    pub fn new() -> Stack
        ensures start { stack_state result ≡ stack_start }
        ensures bounded { StackBounded }
    {
        OnceOnly::over(Freeze::over(Pool::new()))
    }

    /// The weight of a backend below both layers; 0 where there is no such backend.
    pub fn weight(&self, backend: u8) -> u16
        ensures { result ≡ weight (stack_pool self.now) backend }
    {
        self.lower().lower().weight(backend)
    }
}

impl Default for OnceOnly<Freeze<Pool>> {
    ghost is_default = { λ s. stack_state s ≡ stack_start };

    fn default() -> Stack {
        Stack::new()
    }
}
