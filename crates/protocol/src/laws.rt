//! What is proved of every run of directors.

ghost use Rattle.std.specs.Prelude.{◌≡◌, ℕ, ◌≤◌};
ghost use Rattle.protocol.specs.Agreement.{DirectorsAgree};
ghost use Rattle.protocol.specs.Calls.{LowestOwn};
ghost use Rattle.protocol.specs.Examples.{RunsThereAre};
ghost use Rattle.protocol.specs.Loops.{LoopsEnd};
ghost use Rattle.protocol.specs.Refusing.{table_places};

/// How many places a message table must have, so that no call runs out of them. With it stands what is proved of all
/// runs, whatever the journals and machines: directors agree; each loop of a call ends because its test fails; a
/// director stands with its lowest ballot above the promised one; and there are runs in which commands are settled.
pub fn table_places() -> usize
    ensures places { result ≡ table_places }
    ensures agree { DirectorsAgree }
    ensures loops { LoopsEnd }
    ensures ballots { (d b : ℕ) → d ≤ 31 → LowestOwn d b }
    ensures runs { RunsThereAre }
{
    24
}
