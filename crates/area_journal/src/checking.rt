//! The checks of opening, in their order: length and count (`Parts::of`), places, settled records.

ghost use Rattle.std.specs.Prelude.{◌≡◌, ◌<◌, ◌≤◌, Some, None, IfSome, MatchResult};
ghost use Rattle.area_journal.specs.Exactness.{Exact};
ghost use Rattle.area_journal.specs.Opening.{record_good, is_held, place_good, place_is_good, record_is_good};
ghost use Rattle.area_journal.specs.Opening.{first_bad, fault};
ghost use Rattle.area_journal.specs.Reading.{capacity_of, promised_of, count_of};

use crate::OpenFault;
use crate::layout::{
    BLANK, Place, Record, command_of, entry_of, place_at, record_at, record_of, slot_of,
};
use crate::parts::Parts;
use journal::{SPAN, in_window, place_of};

// Whether opening accepts an area, or its first fault.
pub(crate) fn check(area: &[u8]) -> Result<(), OpenFault>
    ensures answer { MatchResult result (λ _. fault area.now ≡ None) (λ e. fault area.now ≡ Some e) }
    ensures exact { Exact area.now }
{
    Parts::of(area)?.check_parts()
}

impl Parts<'_> {
    // The first place that is not in order, or else the first such record.
    #[tactic(auto, using(crate::proofs::Checks::fault_later))]
    fn check_parts(&self) -> Result<(), OpenFault>
        ensures { MatchResult result (λ _. fault self.now.area.now ≡ None) (λ e. fault self.now.area.now ≡ Some e) }
    {
        if let Some(i) = self.bad_place() {
            return Err(OpenFault::Broken {
                offset: place_at(i),
            });
        }
        if let Some(i) = self.bad_record() {
            return Err(OpenFault::Broken {
                offset: record_at(i),
            });
        }
        Ok(())
    }

    // The first place that is not in order.
    #[tactic(auto, unfolding(crate::specs::Opening::place_is_good))]
    fn bad_place(&self) -> Option<usize>
        ensures answer { result ≡ first_bad (place_is_good self.now.area.now) 0 8 }
        ensures within { IfSome result (λ i. i < 8) }
    {
        (0..SPAN).find(|&i| !self.is_good_place(i, self.place(i)))
    }

    // The first settled record that is not in order.
    #[tactic(auto, unfolding(crate::specs::Opening::record_is_good))]
    fn bad_record(&self) -> Option<usize>
        ensures answer { result ≡ first_bad (record_is_good self.now.area.now) 0 (count_of self.now.area.now) }
        ensures within { IfSome result (λ i. i ≤ 60000) }
    {
        (0..self.count() as usize).find(|&i| !is_good_record(self.record(i)))
    }

    // Whether these are bytes of place i in order: none, or an entry that may stand there.
    fn is_good_place(&self, i: usize, place: &Place) -> bool
        ensures { result ≡ place_good (capacity_of self.now.area.now) (promised_of self.now.area.now)
            (count_of self.now.area.now) i place.now }
    {
        *place == BLANK || self.may_hold(i, place)
    }

    // Whether an entry with these bytes may stand in place i.
    fn may_hold(&self, i: usize, place: &Place) -> bool
        ensures { result ≡ is_held (capacity_of self.now.area.now) (promised_of self.now.area.now)
            (count_of self.now.area.now) i place.now }
    {
        let slot = slot_of(place);
        let ballot = entry_of(place).ballot;
        place_of(slot) == i
            && in_window(self.count(), slot)
            && slot <= self.capacity()
            && 1 <= ballot
            && ballot <= self.promised()
            && is_good_record(record_of(place))
    }
}

// Whether the bytes of a record are in order.
fn is_good_record(bytes: &Record) -> bool
    ensures { result ≡ record_good bytes.now }
{
    bytes[1] == 0 && command_of(bytes).is_well_formed()
}
