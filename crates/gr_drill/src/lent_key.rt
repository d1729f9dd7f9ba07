// Keys of groups that are lent by the rows.
ghost use Rattle.std.specs.Prelude.{◌≡◌, IfOk};

use gr_base::{Bytes, NoMemory, RecordId, TableNo};
use gr_expr::GroupKey;
use std::alloc::Global;
use std::hash::{Hash, Hasher};

/// The key of a group, lent.
#[derive(Clone, Copy)]
pub(crate) enum LentKey<'a> {
    /// A reference to this record of this table.
    Ref(TableNo, RecordId),
    /// A whole number.
    Number(i128),
    /// A text.
    Text(&'a [u8]),
    /// `true` or `false`.
    Truth(bool),
}

impl PartialEq for LentKey<'_> {
    ghost use Rattle.std.specs.Cmp.{partial_equiv_from_equiv};
    ghost use Rattle.gr_drill.specs.Inside.Lent.{is_same_lent};
    ghost use Rattle.gr_drill.specs.Inside.Same.{lent_equiv};

    ghost eq = { is_same_lent };

    ghost laws = { partial_equiv_from_equiv lent_equiv };

    fn eq(&self, other: &LentKey<'_>) -> bool {
        match (self, other) {
            (LentKey::Ref(table, id), LentKey::Ref(other_table, other)) => {
                table == other_table && id == other
            }
            (LentKey::Number(number), LentKey::Number(other)) => number == other,
            (LentKey::Text(text), LentKey::Text(other)) => text == other,
            (LentKey::Truth(truth), LentKey::Truth(other)) => truth == other,
            _ => false,
        }
    }
}

impl Eq for LentKey<'_> {
    ghost use Rattle.gr_drill.specs.Inside.Same.{lent_equiv};

    ghost laws = { lent_equiv };
}

impl Hash for LentKey<'_> {
    ghost use Rattle.gr_drill.specs.Inside.Lent.{hashed, lent};
    ghost use Rattle.gr_drill.specs.Inside.Same.{lent_alike};

    ghost hash_input = { λ key. hashed (lent key) };

    ghost respects_eq = { lent_alike };

    fn hash<H: Hasher>(&self, state: &mut H) {
        match self {
            LentKey::Ref(table, id) => {
                state.write_u32(table.0);
                state.write_u32(id.0);
            }
            LentKey::Number(number) => state.write_i128(*number),
            LentKey::Text(text) => state.write(text),
            LentKey::Truth(truth) => truth.hash(state),
        }
    }
}

impl LentKey<'_> {
    ghost use Rattle.gr_drill.specs.Inside.Lent.{lent};

    /// The key itself. A text is copied.
    pub(crate) fn to_key(&self, alloc: Global) -> Result<GroupKey, NoMemory>
        ensures { IfOk result (λ key. key ≡ lent self.now) }
    {
        Ok(match self {
            LentKey::Ref(table, id) => GroupKey::Ref(*table, *id),
            LentKey::Number(number) => GroupKey::Number(*number),
            LentKey::Text(text) => GroupKey::Text(Bytes::from_slice(alloc, text)?),
            LentKey::Truth(truth) => GroupKey::Truth(*truth),
        })
    }
}
