// The keys by which groups are sorted.
ghost use Rattle.std.specs.Prelude.{◌≡◌, map, IfErr, IfOk};
ghost use Rattle.std.specs.Option.{option_copied};
ghost use Rattle.gr_base.specs.Failure.{Answers};
ghost use Rattle.gr_drill.specs.Drilldowns.{is_list, order_of, single_item, sort_key, sort_keys};
ghost use Rattle.gr_schema.specs.Wishes.{IsTold};

use crate::drilldown::{GroupItem, GroupOrder, GroupSortKey};
use crate::items::item_named;
use crate::names::listed;
use gr_base::{Bytes, Failure, Fault, FaultKind, ListOf, TableNo};
use gr_schema::Schema;
use gr_sort::{is_descending, unsigned};
use std::alloc::Global;

/// The sort keys that a text lists, of groups that refer to records of this table, or to none.
pub(crate) fn order_of(
    alloc: Global,
    schema: &Schema,
    to: Option<TableNo>,
    text: Option<&str>,
) -> Result<GroupOrder, Failure<Fault>>
    ensures exact { Answers result (order_of schema.now to (option_copied text.entry)) }
    ensures text { IfErr result IsTold }
{
    let texts = listed(alloc, text.unwrap_or(""))?;
    each_key(alloc, schema, to, &texts)
}

// The keys that texts write, one after the other.
fn each_key(
    alloc: Global,
    schema: &Schema,
    to: Option<TableNo>,
    texts: &[&str],
) -> Result<GroupOrder, Failure<Fault>>
    ensures exact { Answers result (sort_keys schema.now to (map (λ text. text.now) texts.now)) }
    ensures text { IfErr result IsTold }
{
    let mut keys = Vec::new(alloc);
    for text in texts {
        keys.push(sort_key(alloc, schema, to, text)?)?;
    }
    Ok(ListOf::from_vec(keys))
}

// The key that a text writes.
fn sort_key(
    alloc: Global,
    schema: &Schema,
    to: Option<TableNo>,
    text: &str,
) -> Result<GroupSortKey, Failure<Fault>>
    ensures exact { Answers result (sort_key schema.now to text.now) }
    ensures text { IfErr result IsTold }
{
    let item = single_item(alloc, schema, to, unsigned(text))?;
    let descending = is_descending(text);
    Ok(GroupSortKey { item, descending })
}

// What a name stands for, which is no list.
fn single_item(
    alloc: Global,
    schema: &Schema,
    to: Option<TableNo>,
    name: &str,
) -> Result<GroupItem, Failure<Fault>>
    ensures exact { Answers result (single_item schema.now to name.now) }
    ensures text { IfErr result IsTold }
{
    let item = item_named(alloc, schema, to, name)?;
    if is_list(&item) {
        let name = Bytes::from_slice(alloc, name.as_bytes())?;
        Err(Failure::Refused(Fault::named(FaultKind::BadSortKey, name)))
    } else {
        Ok(item)
    }
}

// Whether a list is shown.
fn is_list(item: &GroupItem) -> bool
    ensures { result ≡ is_list item.now }
{
    match item {
        GroupItem::At(path) => path.shape.list,
        GroupItem::Key | GroupItem::Count | GroupItem::Id => false,
    }
}
