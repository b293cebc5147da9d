//! The memory of a director, and the steps that its calls are made of. The calls themselves are not here yet.

#![tactic(auto)]

mod chains;
mod desks;
mod finding;
mod memory;
mod settling;

pub use chains::Chains;
pub use desks::Desk;
pub use memory::{Memory, Role};
