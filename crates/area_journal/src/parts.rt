//! An area that is long enough and counts no more settled records than it has space for: it can be read part by part.

ghost use Rattle.std.specs.Prelude.{◌≡◌, ◌<◌, ◌≤◌, Some, length, MatchResult};
ghost use Rattle.area_journal.specs.Opening.{fault};
ghost use Rattle.area_journal.specs.Reading.{shortest, capacity_of, promised_of, count_of, place_in, record_in};

use crate::OpenFault;
use crate::layout::{
    COUNT_AT, PLACE_BYTES, PROMISED_AT, Place, RECORD_BYTES, RECORDS_AT, Record, SHORTEST,
    count_in, place_at, record_at,
};
use journal::{Bounds, MOST_SLOTS};
use octets::Number;

// The area, read part by part.
#[derive(Clone, Copy)]
pub(crate) struct Parts<'a> {
    pub(crate) area: &'a [u8],
    ghost long: { shortest ≤ length area.now },
    ghost held: { count_of area.now ≤ capacity_of area.now },
}

impl<'a> Parts<'a> {
    // The parts of an area, or what is wrong with its length or its count.
    #[tactic(auto, using(crate::proofs::Checks::fault_short, crate::proofs::Checks::fault_count))]
    pub(crate) fn of(area: &'a [u8]) -> Result<Parts<'a>, OpenFault>
        ensures { MatchResult result (λ parts. parts.area.now ≡ area.now) (λ e. fault area.now ≡ Some e) }
    {
        if area.len() < SHORTEST {
            return Err(OpenFault::NoRecord);
        }
        if count_in(area) > capacity_in(area) {
            return Err(OpenFault::Broken { offset: COUNT_AT });
        }
        Ok(Parts { area })
    }

    // How many slots there are.
    pub(crate) fn capacity(&self) -> u32
        ensures { result ≡ capacity_of self.now.area.now }
    {
        capacity_in(self.area)
    }

    // The promised ballot.
    pub(crate) fn promised(&self) -> u32
        ensures { result ≡ promised_of self.now.area.now }
    {
        u32::read_le(self.area, PROMISED_AT)
    }

    // The settled count.
    pub(crate) fn count(&self) -> u32
        ensures { result ≡ count_of self.now.area.now }
    {
        count_in(self.area)
    }

    // The numbers that decide whether a write is taken.
    pub(crate) fn bounds(&self) -> Bounds
        ensures capacity { result.capacity ≡ capacity_of self.now.area.now }
        ensures promised { result.promised ≡ promised_of self.now.area.now }
        ensures settled { result.settled ≡ count_of self.now.area.now }
    {
        Bounds {
            capacity: self.capacity(),
            promised: self.promised(),
            settled: self.count(),
        }
    }

    // Place i.
    pub(crate) fn place(&self, i: usize) -> &'a Place
        requires { i < 8 }
        ensures { result.now ≡ place_in self.now.area.now i }
    {
        let at = place_at(i);
        self.area[at..at + PLACE_BYTES].as_array().unwrap()
    }

    // Settled record i, from 0: that of slot i + 1.
    pub(crate) fn record(&self, i: usize) -> &'a Record
        requires { i < count_of self.now.area.now }
        ensures { result.now ≡ record_in self.now.area.now i }
    {
        let at = record_at(i);
        self.area[at..at + RECORD_BYTES].as_array().unwrap()
    }
}

// How many slots an area has, by its length alone.
fn capacity_in(area: &[u8]) -> u32
    ensures { result ≡ capacity_of area.now }
{
    let slots = area.len().saturating_sub(RECORDS_AT) / RECORD_BYTES;
    slots.min(MOST_SLOTS as usize) as u32
}
