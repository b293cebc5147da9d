//! The journal in its bytes, as a value that is always in order.

ghost use Rattle.std.specs.Prelude.{◌≡◌, ◌≤◌, true, length};
ghost use Rattle.area_journal.specs.Opening.{is_sound};
ghost use Rattle.area_journal.specs.Reading.{shortest, capacity_of, count_of};

/// A journal that owns the bytes that it stands in.
// Its facts are ghost fields and no `impl Model`: a view of the bytes alone would not tell that they are sound, and
// from that comes the law that the meaning of each journal is within its bounds.
#[derive(PartialEq, Eq, Debug, Drop)]
pub struct AreaJournal {
    pub(crate) area: Vec<u8>,
    ghost long: { shortest ≤ length area.items },
    ghost held: { count_of area.items ≤ capacity_of area.items },
    ghost sound: { is_sound area.items ≡ true },
}
