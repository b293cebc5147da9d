//! Sets of directors.

ghost use Rattle.std.specs.Prelude.{◌≡◌, ℕ, bit_and, bit_or, count_ones};
ghost use Rattle.command.specs.Sets.{has, with_director};

/// A set of directors: bit d is 1 where director d is in it.
#[derive(Clone, Copy, PartialEq, Eq, Debug)]
pub struct DirectorSet {
    pub bits: u32,
}

impl DirectorSet {
    /// The set with nobody in it.
    pub const EMPTY: DirectorSet = DirectorSet { bits: 0 };

    /// Whether a director is in the set; a number above 31 is no director's, and in none.
    pub fn contains(self, director: u8) -> bool
        ensures { result ≡ has self.bits director }
    {
        bit_is_set(self.bits, director)
    }

    /// The set and this director; a number above 31 adds nothing.
    pub fn with(self, director: u8) -> DirectorSet
        ensures { result.bits ≡ with_director self.bits director }
    {
        if director > 31 {
            return self;
        }
        DirectorSet {
            bits: self.bits | 1 << director,
        }
    }

    /// Who is in either set.
    pub fn union(self, other: DirectorSet) -> DirectorSet
        ensures { result.bits ≡ bit_or self.bits other.bits }
    {
        DirectorSet {
            bits: self.bits | other.bits,
        }
    }

    /// Who is in both sets.
    pub fn common(self, other: DirectorSet) -> DirectorSet
        ensures { result.bits ≡ bit_and self.bits other.bits }
    {
        DirectorSet {
            bits: self.bits & other.bits,
        }
    }

    /// How many are in the set.
    pub fn count(self) -> u32
        ensures { result ≡ count_ones self.bits }
    {
        self.bits.count_ones()
    }
}

// Whether bit `place` of a number is 1; past its 32 bits none is.
// A function of its own: a proof knows of a parameter that is a number, and not of a field, that it fits its type.
fn bit_is_set(bits: u32, place: u8) -> bool
    ensures { result ≡ has bits place }
{
    place < 32 && (bits >> place) % 2 == 1
}
