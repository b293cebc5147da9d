//! A whole list at once.

ghost use Rattle.std.specs.Prelude.{◌≡◌};
ghost use Rattle.archive.specs.Lists.{Wrote, space_for, addressable, EnoughSpace};

use crate::{COUNT_BYTES, HEADER_BYTES, OpenArchive, Refusal, SealedArchive};
use command::{Command, SERIAL_BYTES};
use thiserror::Error;

/// Why a list was not written: the call that was refused, and its refusal.
#[derive(Clone, Copy, PartialEq, Eq, Hash, Debug, Error)]
pub enum ListRefusal {
    /// The beginning: the chain is not valid, or there is no space for it.
    #[error("refused {code}: {refusal}", code = .0.number(), refusal = .0)]
    Begin(Refusal),
    /// An entry, counted from 1.
    #[error("refused {code} at entry {number}: {refusal}", code = .refusal.number())]
    Entry { number: usize, refusal: Refusal },
}

/// How many bytes an area needs to have space for the archive of so many members and any so many commands, if that is
/// a number of bytes that an area can have.
pub fn space_for(members: usize, commands: usize) -> Option<usize>
    ensures { result ≡ addressable (space_for members commands) }
{
    let entries = commands.checked_mul(7 + SERIAL_BYTES)?;
    let ends = members.checked_add(HEADER_BYTES + COUNT_BYTES)?;
    entries.checked_add(ends)
}

/// Writes the archive of this chain and these commands at the front of the area: begin, an add for each, and seal.
/// Where an entry is refused, the archive is struck.
#[tactic(auto, using(crate::proofs::Space::enough_space))]
pub fn write_list(
    area: &mut [u8],
    members: &[u8],
    commands: &[Command],
) -> Result<SealedArchive, ListRefusal>
    ensures wrote { Wrote members.now commands.now
        area.old area.new result }
    ensures space { EnoughSpace }
{
    let mut open = OpenArchive::begin(area, members).map_err(ListRefusal::Begin)?;
    for (i, command) in commands.iter().enumerate() {
        open = match open.add(area, command) {
            Ok(open) => open,
            Err((open, refusal)) => {
                open.strike(area);
                return Err(ListRefusal::Entry {
                    number: i + 1,
                    refusal,
                });
            }
        };
    }
    match open.seal(area) {
        Ok(sealed) => Ok(sealed),
        // Each add left room for the count, so this does not happen; and an open archive cannot be let go.
        Err((open, _)) => {
            open.strike(area);
            unreachable!()
        }
    }
}
