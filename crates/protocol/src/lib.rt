//! The protocol by which directors agree on one list of commands: its messages, its refusals, the slot window, what
//! each call does, what a run is, and that directors agree in every run.

#![tactic(auto)]

mod kinds;
mod laws;
mod messages;
mod refusals;
mod windows;

pub use journal::place_of;
pub use kinds::{Kind, UnknownKind};
pub use laws::table_places;
pub use messages::{Acknowledged, Message, Reply};
pub use refusals::Refusal;
pub use windows::Window;
