//! The quorum test.

ghost use Rattle.command.specs.Quorums.{enough, QuorumsMeet};
ghost use Rattle.std.specs.Prelude.{◌≡◌};

use crate::{Chain, DirectorSet};

impl Chain {
    /// Whether the members in the set number more than half of the chain. Two such sets share a member of the chain.
    pub fn is_enough(&self, set: DirectorSet) -> bool
        ensures answer { result ≡ enough self.now.members set.bits }
        ensures meet { QuorumsMeet }
    {
        let masked = set.common(self.set());
        2 * masked.count() as usize > self.count
    }
}
