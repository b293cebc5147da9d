//! Where the parts of a journal stand in an area of bytes, and what they tell.
//! `specs/Layout.antt` tells the same sizes and offsets.

ghost use Rattle.std.specs.Prelude.{◌≡◌, ◌+◌, ◌<◌, ◌≤◌, length};
ghost use Rattle.octets.specs.Areas.{part, over};
ghost use Rattle.area_journal.specs.Layout.{record_bytes, place_at, record_at, command_of, slot_of, entry_of};
ghost use Rattle.area_journal.specs.Layout.{command_bytes, entry_bytes};
ghost use Rattle.area_journal.specs.Reading.{shortest, count_of};

use command::{Command, SERIAL_BYTES, Serial};
use journal::{Entry, SPAN};
use octets::{Number, write_bytes};

// Where the promised ballot and the settled count stand.
pub(crate) const PROMISED_AT: usize = 0;

pub(crate) const COUNT_AT: usize = 4;

// How many bytes the record of a command takes: verb, 00, origin, serial, a, b.
pub(crate) const RECORD_BYTES: usize = 8 + SERIAL_BYTES;

// How many bytes an open entry takes: slot, ballot, command.
pub(crate) const PLACE_BYTES: usize = 8 + RECORD_BYTES;

// Where the places for open entries begin.
const PLACES_AT: usize = 8;

// Where the settled records begin.
pub(crate) const RECORDS_AT: usize = PLACES_AT + PLACE_BYTES * SPAN;

/// The length of the shortest area, which has space for one settled record.
pub const SHORTEST: usize = RECORDS_AT + RECORD_BYTES;

// The bytes of a command, and those of an open entry.
pub(crate) type Record = [u8; RECORD_BYTES];

pub(crate) type Place = [u8; PLACE_BYTES];

// A place in which no entry stands.
pub(crate) const BLANK: Place = [0; PLACE_BYTES];

// Where place i stands.
pub(crate) fn place_at(i: usize) -> usize
    requires { i < 8 }
    ensures { result ≡ place_at i }
{
    PLACES_AT + PLACE_BYTES * i
}

// Where settled record i stands, from 0: that of slot i + 1.
pub(crate) fn record_at(i: usize) -> usize
    requires { i ≤ 60000 }
    ensures { result ≡ record_at i }
{
    RECORDS_AT + RECORD_BYTES * i
}

// The settled count of an area.
pub(crate) fn count_in(area: &[u8]) -> u32
    requires { shortest ≤ length area.now }
    ensures { result ≡ count_of area.now }
{
    u32::read_le(area, COUNT_AT)
}

// The command that a record tells.
pub(crate) fn command_of(bytes: &Record) -> Command
    ensures { result ≡ command_of bytes.now }
{
    Command {
        verb: bytes[0],
        origin: u16::read_le(bytes, 2),
        serial: Serial::read_le(bytes, 4),
        a: u16::read_le(bytes, 4 + SERIAL_BYTES),
        b: u16::read_le(bytes, 6 + SERIAL_BYTES),
    }
}

// The record in a place.
pub(crate) fn record_of(place: &Place) -> &Record
    ensures { result.now ≡ part 8 record_bytes place.now }
{
    place[8..8 + RECORD_BYTES].as_array().unwrap()
}

// The slot that a place tells.
pub(crate) fn slot_of(place: &Place) -> u32
    ensures { result ≡ slot_of place.now }
{
    u32::read_le(place, 0)
}

// The entry that a place tells.
pub(crate) fn entry_of(place: &Place) -> Entry
    ensures { result ≡ entry_of place.now }
{
    Entry {
        ballot: u32::read_le(place, 4),
        command: command_of(record_of(place)),
    }
}

// Writes the open entry of a slot.
pub(crate) fn write_entry(area: &mut [u8], at: usize, slot: u32, ballot: u32, command: &Command)
    requires { at + length (entry_bytes slot ballot command.now) ≤ length area.old }
    ensures { area.new
        ≡ over area.old at (entry_bytes slot ballot command.now) }
{
    slot.write_le(area, at);
    ballot.write_le(area, at + 4);
    write_command(area, at + 8, command);
}

// Writes the record of a command.
pub(crate) fn write_command(area: &mut [u8], at: usize, command: &Command)
    requires { at + length (command_bytes command.now) ≤ length area.old }
    ensures { area.new ≡ over area.old at (command_bytes command.now) }
{
    write_bytes(area, at, &[command.verb, 0]);
    command.origin.write_le(area, at + 2);
    command.serial.write_le(area, at + 4);
    command.a.write_le(area, at + 4 + SERIAL_BYTES);
    command.b.write_le(area, at + 6 + SERIAL_BYTES);
}
