//! How the chains of the window are found, and how they move.

ghost use Rattle.std.specs.Prelude.{◌<◌, []};
ghost use Rattle.journal.specs.declared.TheConstants.{MOST_SLOTS};
ghost use Rattle.steps.specs.Chains.{Tells, Follows, Told};

use crate::chains::Chains;
use command::{Chain, Command};
use journal::SPAN;
use protocol::place_of;

impl Chains {
    /// The chains of the first eight slots: each is the founding chain.
    pub fn founded(founding: &Chain) -> Chains
        ensures { Tells founding.now [] result }
    {
        Chains {
            places: [*founding; SPAN],
            settled: 0,
        }
    }

    /// The chain of a slot of the window.
    pub fn get(&self, slot: u32) -> Chain
        ensures { Told self.now slot result }
    {
        self.places[place_of(slot)]
    }

    /// After one more settled command: the slot that it settles leaves the window, and the next one has the chain that
    /// this command leaves.
    pub fn settle(&mut self, command: &Command)
        requires { self.old.settled < MOST_SLOTS }
        ensures { Follows self.old command.now self.new }
    {
        let next = self.get(self.settled + SPAN as u32).after(command);
        self.settled += 1;
        // By its place: through a `Window` over chains the proof could not tell what is left, since a chain is seen as
        // its members and not as it is stored.
        self.places[place_of(self.settled)] = next;
    }
}
