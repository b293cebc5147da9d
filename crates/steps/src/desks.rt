//! A director at work.

ghost use Rattle.steps.specs.Chains.{Tells};
ghost use Rattle.steps.specs.Views.{view};

use crate::chains::Chains;
use crate::memory::Memory;
use journal::Journal;

/// A director at work in a call: its memory, with its journal and its machine, the chains that count for the slots of
/// the window, and the machine's last answer in this call, if it gave one. The chains are those that the journal tells.
// A lifetime for each of the three, since a caller that lends them for one could not be proved.
#[derive(Drop)]
pub struct Desk<'d, 'j, 'm, J: Journal, M> {
    pub memory: &'d mut Memory,
    pub journal: &'j mut J,
    pub machine: &'m mut M,
    pub chains: Chains,
    pub answer: Option<u16>,
    pub ghost ready: { Tells (view memory.now).founding (J.meaning journal.now).settled chains },
}
