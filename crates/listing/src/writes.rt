//! A list as text.

ghost use Rattle.listing.specs.declared.faults.Fault.TheVariants.{Memory};
ghost use Rattle.listing.specs.Writing.{chain_line, line_of, ending};
ghost use Rattle.std.specs.Prelude.{◌≡◌, ◌++◌, string_bytes, OnOk, IsOkUnless};

use crate::Fault;
use command::{Command, UnknownVerb, Verb};

/// Appends the first line: the chain of these members. Where memory runs out, a part of the line may stand there.
pub fn write_chain(out: &mut String, members: &[u8]) -> Result<(), Fault>
    ensures written { OnOk result (string_bytes out.new ≡
        string_bytes out.old ++ ending (chain_line members.now)) }
    ensures fails_by_memory { IsOkUnless result Memory }
{
    out.push_str("chain")?;
    for member in members {
        write!(out, " {member}")?;
    }
    out.push('\n')?;
    Ok(())
}

/// Appends the line of a command. Where memory runs out, a part of the line may stand there.
pub fn write_entry(out: &mut String, command: &Command) -> Result<(), Fault>
    ensures written { OnOk result (string_bytes out.new ≡
        string_bytes out.old ++ ending (line_of command.now)) }
    ensures fails_by_memory { IsOkUnless result Memory }
{
    let Command {
        verb,
        origin,
        serial,
        a,
        b,
    } = *command;
    match Verb::try_from(verb) {
        Ok(Verb::Noop) => writeln!(out, "noop")?,
        Ok(Verb::Add) => writeln!(out, "add {a}")?,
        Ok(Verb::Remove) => writeln!(out, "remove {a}")?,
        Ok(Verb::Change) | Err(UnknownVerb(_)) => writeln!(
            out,
            "change {verb} {origin} {serial} {a} {b}"
        )?,
    }
    Ok(())
}
