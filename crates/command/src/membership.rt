//! How chains are made and how settled commands change them.

ghost use Rattle.command.specs.Chains.{answered, founding, refusal_number, after, after_all, chain_for};
ghost use Rattle.command.specs.Members.{valid_chain, all_in, different_directors, is_member, place_of, added, removed};
ghost use Rattle.command.specs.Places.{placed};
ghost use Rattle.command.specs.Sets.{set_of};
ghost use Rattle.std.specs.Prelude.{◌≡◌, ◌≤◌, true, length};

use crate::{Chain, Command, DirectorSet, InvalidChain, Verb};

// A settled command counts for the slots from this many after its own on.
const LAG: usize = 8;

impl InvalidChain {
    /// The number of this refusal.
    pub fn number(self) -> u8
        ensures { result ≡ refusal_number self }
    {
        11
    }
}

impl Chain {
    /// A founding chain of these members in this order, or refusal 11.
    pub fn new(members: &[u8]) -> Result<Chain, InvalidChain>
        ensures { answered result ≡ founding members.now }
    {
        if !is_valid(members) {
            return Err(InvalidChain);
        }
        Ok(Chain {
            places: placed(members),
            count: members.len(),
            ever: set_of(members),
        })
    }

    /// The members in the chain's order: 1 to 7 different directors, each of whom is among those who were ever members.
    pub fn members(&self) -> &[u8]
        ensures members { result.now ≡ self.now.members }
        ensures valid { valid_chain self.now.members ≡ true }
        ensures known { all_in self.now.ever self.now.members ≡ true }
    {
        &self.places[0..self.count]
    }

    /// All who were ever members.
    pub fn ever(&self) -> DirectorSet
        ensures { result.bits ≡ self.now.ever }
    {
        self.ever
    }

    /// Whether a director is a member.
    pub fn contains(&self, director: u8) -> bool
        ensures { result ≡ is_member director self.now.members }
    {
        self.members().contains(&director)
    }

    /// The set of the members.
    pub fn set(&self) -> DirectorSet
        ensures { result.bits ≡ set_of self.now.members }
    {
        set_of(self.members())
    }

    /// The chain after a settled command: an add or a remove that has an effect changes it, all else leaves it.
    pub fn after(&self, command: &Command) -> Chain
        ensures { result ≡ after self.now command.now }
    {
        if !command.is_well_formed() {
            return *self;
        }
        match Verb::try_from(command.verb) {
            Ok(Verb::Add) => self.with_added(command.a as u8),
            Ok(Verb::Remove) => self.with_removed(command.a as u8),
            Ok(Verb::Noop | Verb::Change) | Err(_) => *self,
        }
    }

    /// The chain that counts for a slot, where this is the founding chain and these are the commands settled so far.
    pub fn for_slot(&self, settled: &[Command], slot: usize) -> Chain
        ensures { result ≡ chain_for self.now settled.now slot }
    {
        let count = settled.len().min(slot.saturating_sub(LAG));
        self.after_all(&settled[0..count])
    }

    /// The chain after a list of settled commands.
    pub fn after_all(&self, settled: &[Command]) -> Chain
        ensures { result ≡ after_all self.now settled.now }
    {
        let mut chain = *self;
        for command in settled {
            chain = chain.after(command);
        }
        chain
    }

    // Director `a` at the end, if there is room and it was never a member.
    fn with_added(&self, a: u8) -> Chain
        requires { a ≤ 31 }
        ensures { result ≡ added a self.now }
    {
        if self.count >= 7 || self.ever.contains(a) {
            return *self;
        }
        let mut places = self.places;
        places[self.count] = a;
        Chain {
            places,
            count: self.count + 1,
            ever: self.ever.with(a),
        }
    }

    // Without director `a`, if it is a member and not the only one.
    fn with_removed(&self, a: u8) -> Chain
        ensures { result ≡ removed a self.now }
    {
        if self.count < 2 {
            return *self;
        }
        let Some(at) = place_of(a, self.members()) else {
            return *self;
        };
        let mut places = self.places;
        places[at] = 0;
        places[at..].rotate_left(1);
        Chain {
            places,
            count: self.count - 1,
            ever: self.ever,
        }
    }
}

// Whether the members make a valid chain.
fn is_valid(members: &[u8]) -> bool
    ensures { result ≡ valid_chain members.now }
{
    1 <= members.len() && members.len() <= 7 && are_different(members)
}

// Whether each is a director's number and no two are the same.
fn are_different(members: &[u8]) -> bool
    ensures { result ≡ different_directors members.now }
{
    let mut left = members;
    while let Some((member, others)) = left.split_first() {
        if *member > 31 || others.contains(member) {
            return false;
        }
        left = others;
    }
    true
}

// Where a director stands in a list.
fn place_of(director: u8, members: &[u8]) -> Option<usize>
    ensures { result ≡ place_of director members.now }
{
    members.iter().position(|m| *m == director)
}

// The places of a chain with these members.
fn placed(members: &[u8]) -> [u8; 7]
    requires { length members.now ≤ 7 }
    ensures { result ≡ placed members.now }
{
    let mut places = [0; 7];
    places[..members.len()].copy_from_slice(members);
    places
}

// The set of the directors of a list.
fn set_of(members: &[u8]) -> DirectorSet
    ensures { result.bits ≡ set_of members.now }
{
    let mut set = DirectorSet::EMPTY;
    for m in members {
        set = set.with(*m);
    }
    set
}
