// Groups with their numbers.
ghost use Rattle.std.specs.Prelude.{◌≡◌, IfOk};
ghost use Rattle.gr_drill.specs.Block.{id_of, numbered_from, referred};

use gr_base::{NoMemory, RecordId};
use gr_expr::{Group, GroupKey};
use std::alloc::Global;

/// A group with its number, from 1 by first appearance.
pub(crate) type Numbered = (u64, Group);

/// Groups with their numbers.
pub(crate) fn numbered(alloc: Global, groups: Vec<Group>) -> Result<Vec<Numbered>, NoMemory>
    ensures { IfOk result (λ made. made.items ≡ numbered_from 1 groups.items) }
{
    let mut made = Vec::with_capacity(alloc, groups.len())?;
    for group in groups {
        made.push((made.len() as u64 + 1, group))?;
    }
    Ok(made)
}

/// The id of the record that a group refers to, and the number of any other group.
pub(crate) fn id_of(number: u64, key: &GroupKey) -> u64
    ensures { result ≡ id_of number key.now }
{
    match key {
        GroupKey::Ref(_, id) => u64::from(id.0),
        GroupKey::Number(_) | GroupKey::Text(_) | GroupKey::Truth(_) => number,
    }
}

/// The record that a group refers to, and no record's id where it refers to none.
pub(crate) fn referred(key: &GroupKey) -> RecordId
    ensures { result ≡ referred key.now }
{
    match key {
        GroupKey::Ref(_, id) => *id,
        GroupKey::Number(_) | GroupKey::Text(_) | GroupKey::Truth(_) => RecordId(0),
    }
}
