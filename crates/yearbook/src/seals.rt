//! From a list's text to its archive file.

ghost use Rattle.archive.specs.Layout.{Archive};
ghost use Rattle.command.specs.Commands.{well_formed};
ghost use Rattle.command.specs.Members.{valid_chain};
ghost use Rattle.std.specs.Prelude.{◌≡◌, true, MatchResult};
ghost use Rattle.std.specs.List.{AllPass};
ghost use Rattle.yearbook.specs.Years.{Year, Unsealed, Unfiled};

use crate::SealFault;
use archive::{space_for, write_list};
use command::{Chain, Command};
use listing::read_list;
use std::alloc::Global;

/// A year's archive file, how many entries it has, and the chain after all of them.
#[derive(Drop, PartialEq, Eq, Debug)]
pub struct SealedYear {
    pub file: Vec<u8>,
    pub entries: usize,
    pub chain: Chain,
}

/// The archive file of the list that a text tells.
pub fn seal_text(heap: Global, text: &[u8]) -> Result<SealedYear, SealFault>
    ensures { MatchResult result (Year text.now) (Unsealed text.now) }
{
    let list = read_list(heap, text)?;
    let file = file_of(heap, list.chain.members(), list.commands.as_slice())?;
    let chain = list.chain.after_all(list.commands.as_slice());
    Ok(SealedYear {
        file,
        entries: list.commands.len(),
        chain,
    })
}

// The archive file of a founding chain and commands.
fn file_of(heap: Global, members: &[u8], commands: &[Command]) -> Result<Vec<u8>, SealFault>
    requires chain { valid_chain members.now ≡ true }
    requires formed { AllPass well_formed commands.now }
    ensures { MatchResult result (λ v. Archive v.items members.now commands.now)
        (Unfiled commands.now) }
{
    let space = space_for(members.len(), commands.len()).ok_or(SealFault::Memory)?;
    let mut area = vec![in heap; 0u8; space]?;
    let sealed = write_list(area.as_mut_slice(), members, commands)?;
    area.truncate(sealed.length());
    Ok(area)
}
