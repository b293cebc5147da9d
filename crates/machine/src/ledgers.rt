//! The ledger: what the hosts hold and what is free are 512 addresses together.

ghost use Rattle.machine.specs.Denials.{told};
ghost use Rattle.machine.specs.Ledgers.{ledger_start, ledger_rule, holding_of, free_of};
ghost use Rattle.machine.specs.Ledgers.{AddressesShared, HoldingsBalanced};
ghost use Rattle.std.proofs.Common.{ap, arith};
ghost use Rattle.std.specs.Prelude.{◌≡◌, ◌+◌, List, ℕ, sum};

use crate::{Denial, Machine};
use command::Command;
use std::marker::Model;

/// How many of 512 addresses each of the hosts 0 to 63 holds, and how many are free.
#[derive(Clone, Copy, PartialEq, Eq, Debug)]
pub struct Ledger {
    holdings: [u16; 64],
    free: u16,
}

// A ledger is seen as the list of what the hosts hold, since the other addresses are free.
impl Model for Ledger {
    ghost Value = { List ℕ };

    ghost view = { λ l. l.holdings };

    ghost invariant = { λ l. sum l.holdings + l.free ≡ 512 };

    ghost inverse = { λ s. record { holdings = s; free = free_of s } };

    ghost inverse_ok = { λ l h. ap (λ n. record { holdings = l.holdings; free = n }) (omega arith) };
}

// A command may hold any verb, and a machine does nothing by those that it does not know: so the two that it knows are
// numbers with names. This one gives host a b of the free addresses.
const GIVE: u8 = 16;

// The verb that takes back b of the addresses that host a holds.
const TAKE_BACK: u8 = 17;

impl Ledger {
    /// The ledger in which all 512 addresses are free. Whatever commands it gets, the hosts never hold more than 512
    /// in all, and none gives back more than it got.
    pub fn new() -> Ledger
        ensures start { result ≡ ledger_start }
        ensures shared { AddressesShared }
        ensures balanced { HoldingsBalanced }
    {
        Ledger {
            holdings: [0; 64],
            free: 512,
        }
    }

    /// How many addresses a host holds; 0 for a number above 63, which is no host's.
    // As `Pool::weight`, by one line: what the two numbers mean differs, and no code here asks for either.
    pub fn holding(&self, host: u8) -> u16
        ensures { result ≡ holding_of self.now host }
    {
        self.holdings.get(host as usize).copied().unwrap_or(0)
    }

    /// How many addresses no host holds: with what the hosts hold they are 512.
    pub fn free(&self) -> u16
        ensures rest { result ≡ free_of self.now }
        ensures shared { sum self.now + result ≡ 512 }
    {
        self.free
    }

    // Gives addresses to a host or takes some back, and gives its new holding.
    fn change(&mut self, command: &Command) -> Result<u16, Denial>
        ensures next { self.new ≡ (ledger_rule self.old command.now).0 }
        ensures answer { told result ≡ (ledger_rule self.old command.now).1 }
    {
        let host = command.a as usize;
        let count = command.b;
        let held = *self.holdings.get(host).ok_or(Denial::NoEffect)?;
        (self.holdings[host], self.free) = match command.verb {
            GIVE if (1..=self.free).contains(&count) => (held + count, self.free - count),
            TAKE_BACK if (1..=held).contains(&count) => (held - count, self.free + count),
            _ => return Err(Denial::NoEffect),
        };
        Ok(self.holdings[host])
    }
}

impl Default for Ledger {
    ghost is_default = { λ l. l ≡ ledger_start };

    fn default() -> Ledger {
        Ledger::new()
    }
}

impl Machine for Ledger {
    ghost state = { λ l. l };

    ghost start = { ledger_start };

    ghost rule = { ledger_rule };

    fn apply(&mut self, command: &Command) -> u16 {
        self.change(command).unwrap_or_else(Denial::answer)
    }

    fn reset(&mut self) {
        *self = Ledger::new();
    }
}
