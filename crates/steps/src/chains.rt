//! The chains that count for the eight slots after the settled ones.

use command::Chain;
use journal::SPAN;

/// The chain of each slot of the window, in the place of the slot, and how many slots are settled.
// The count stands here too, so that what is true of the chains is said of them alone, and not of a journal as well.
#[derive(Clone, Copy, PartialEq, Eq, Debug)]
pub struct Chains {
    pub(crate) places: [Chain; SPAN],
    pub(crate) settled: u32,
}
