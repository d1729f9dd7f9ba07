// How often keys have been counted.
ghost use Rattle.std.specs.Prelude.{◌≡◌, IfOk, OnOk};
ghost use Rattle.std.specs.Option.{option_map, option_to_list};
ghost use Rattle.gr_drill.specs.Inside.Lent.{lent};
ghost use Rattle.gr_drill.specs.Inside.Tally.{lent_groups, one_more, with_all, with_one};

use crate::lent_key::LentKey;
use gr_base::{MOST_SCORE, NoMemory};
use gr_expr::Group;
use indexmap::IndexMap;
use std::alloc::Global;

/// The highest count of a group, at which counts stand still, as scores do: both are shown as `Int32`.
pub const MOST_COUNT: u32 = MOST_SCORE;

/// How often each key has been counted, in order of first appearance.
pub(crate) type Tally<'a> = IndexMap<LentKey<'a>, u32>;

// A count and one more.
fn one_more(count: u32) -> u32
    ensures { result ≡ one_more count }
{
    count.saturating_add(1).min(MOST_COUNT)
}

/// Counts a key once more. It takes one look-up, and one more where the key is new.
pub(crate) fn count<'a>(tally: &mut Tally<'a>, key: LentKey<'a>) -> Result<(), NoMemory>
    ensures { OnOk result (lent_groups tally.new.entries ≡ with_one (lent_groups tally.old.entries) (lent key.entry)) }
{
    match tally.get_mut(&key) {
        Some(count) => {
            *count = one_more(*count);
            Ok(())
        }
        None => {
            tally.insert(key, 1)?;
            Ok(())
        }
    }
}

/// Counts a key once more, where there is one.
pub(crate) fn count_some<'a>(
    tally: &mut Tally<'a>,
    key: Option<LentKey<'a>>,
) -> Result<(), NoMemory>
    ensures { OnOk result (lent_groups tally.new.entries ≡ with_all (lent_groups tally.old.entries) (option_to_list (option_map lent key.entry))) }
{
    match key {
        Some(key) => count(tally, key),
        None => Ok(()),
    }
}

/// The groups of the keys.
pub(crate) fn groups_in(alloc: Global, tally: &Tally<'_>) -> Result<Vec<Group>, NoMemory>
    ensures { IfOk result (λ groups. groups.items ≡ lent_groups tally.now.entries) }
{
    let mut groups = Vec::with_capacity(alloc, tally.len())?;
    for (key, count) in tally {
        let key = key.to_key(alloc)?;
        groups.push(Group { key, count: *count })?;
    }
    Ok(groups)
}
