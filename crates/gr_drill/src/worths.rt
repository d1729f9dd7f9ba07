// What is read at groups, and how they compare by it.
ghost use Rattle.std.specs.Prelude.{◌≡◌, OnOk};
ghost use Rattle.gr_drill.specs.Block.{common_worth, group_cmp, item_worth, key_cmp, ordered};
ghost use Rattle.gr_sort.specs.Inside.Rows.{worth};

use crate::drilldown::{GroupItem, GroupSortKey};
use crate::numbered::{Numbered, id_of, referred};
use gr_base::NoMemory;
use gr_expr::{GroupKey, Rows};
use gr_sort::{Value, compare_worths, key_value, path_value};
use std::cmp::Ordering;

/// Groups put in the order of the keys.
pub(crate) fn sort<R: Rows>(
    rows: &R,
    keys: &[GroupSortKey],
    groups: &mut Vec<Numbered>,
) -> Result<(), NoMemory>
    ensures { OnOk result (groups.new.items ≡ ordered (R.tables rows.now) keys.now groups.old.items) }
{
    groups.sort_by(|left, right| compare(rows, keys, left, right))?;
    Ok(())
}

// Two groups by the keys in order, and where none tells them apart by first appearance.
fn compare<R: Rows>(rows: &R, keys: &[GroupSortKey], left: &Numbered, right: &Numbered) -> Ordering
    ensures { result ≡ group_cmp (R.tables rows.now) keys.now left.now right.now }
{
    for key in keys {
        match by_key(rows, key, left, right) {
            Ordering::Equal => {}
            order => return order,
        }
    }
    left.0.cmp(&right.0)
}

// Two groups by one key.
fn by_key<R: Rows>(rows: &R, key: &GroupSortKey, left: &Numbered, right: &Numbered) -> Ordering
    ensures { result ≡ key_cmp (R.tables rows.now) key.now left.now right.now }
{
    let left = item_value(rows, left, &key.item);
    let right = item_value(rows, right, &key.item);
    let order = compare_worths(left, right);
    if key.descending {
        order.reverse()
    } else {
        order
    }
}

// What is read at a group.
fn item_value<'a, R: Rows>(rows: &'a R, group: &'a Numbered, item: &GroupItem) -> Option<Value<'a>>
    ensures { worth result ≡ item_worth (R.tables rows.now) group.now item.now }
{
    match item {
        GroupItem::Key => common_value(rows, &group.1.key),
        GroupItem::Count => Some(Value::Number(i128::from(group.1.count))),
        GroupItem::Id => Some(Value::Number(i128::from(id_of(group.0, &group.1.key)))),
        GroupItem::At(path) => path_value(rows, referred(&group.1.key), path),
    }
}

// What its records have in common; a reference has the value of its key.
fn common_value<'a, R: Rows>(rows: &'a R, key: &'a GroupKey) -> Option<Value<'a>>
    ensures { worth result ≡ common_worth (R.tables rows.now) key.now }
{
    match key {
        GroupKey::Ref(table, id) => Some(key_value(rows.key(*table, *id)?)),
        GroupKey::Number(number) => Some(Value::Number(*number)),
        GroupKey::Text(text) => Some(Value::Text(text.as_slice())),
        GroupKey::Truth(truth) => Some(Value::Truth(*truth)),
    }
}
