//! The writes of a journal, in its bytes.

ghost use Rattle.std.specs.Prelude.{◌≡◌, ◌≤◌, true, length};
ghost use Rattle.area_journal.specs.Reading.{shortest, meaning_of};
ghost use Rattle.area_journal.specs.Writing.{written, NumbersFit};
ghost use Rattle.journal.specs.Meaning.{taken};

use crate::layout::{
    BLANK, COUNT_AT, PROMISED_AT, count_in, place_at, record_at, write_command, write_entry,
};
use journal::{Write, place_of};
use octets::{Number, write_bytes};

// Makes a write that is taken. A settle writes its record, then the count, and blanks the slot's place last.
#[tactic(auto, unfolding(crate::specs::Writing::written), using(crate::proofs::Meanings::less_settle))]
pub(crate) fn make(area: &mut [u8], write: Write)
    requires long { shortest ≤ length area.old }
    requires taken { taken write (meaning_of area.old) ≡ true }
    ensures wrote { area.new ≡ written write area.old }
    ensures fits { NumbersFit write }
{
    match write {
        Write::Promise { ballot } => ballot.write_le(area, PROMISED_AT),
        Write::Put {
            slot,
            ballot,
            command,
        } => {
            let at = place_at(place_of(slot));
            write_entry(area, at, slot, ballot, &command);
        }
        Write::Settle { command } => {
            let count = count_in(area);
            let place = place_at(place_of(count + 1));
            write_command(area, record_at(count as usize), &command);
            (count + 1).write_le(area, COUNT_AT);
            write_bytes(area, place, &BLANK);
        }
    }
}
