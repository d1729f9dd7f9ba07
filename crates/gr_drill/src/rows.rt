// What columns show of groups, written as JSON.
ghost use Rattle.std.specs.Prelude.{◌≡◌, ◌∷◌, [], OnOk};
ghost use Rattle.std.specs.List.{AllByRecursion};
ghost use Rattle.gr_drill.specs.Fits.{FitsItem, IsShown};
ghost use Rattle.gr_drill.specs.Inside.Legible.{IsLegible};
ghost use Rattle.gr_drill.specs.Inside.Tokens.{common_token, item_tokens, row_tokens};
ghost use Rattle.gr_values.specs.Tokens.{Appends};
ghost use Rattle.json.specs.Token.{boolean};

use crate::drilldown::{GroupColumn, GroupItem};
use crate::numbered::{Numbered, id_of, referred};
use gr_base::NoMemory;
use gr_expr::{GroupKey, Rows};
use gr_print::{
    close_array, open_array, write_count, write_key, write_number, write_path, write_text,
};
use gr_values::DataType;
use json::Writer;
use std::alloc::Global;

/// What columns show of a group whose values have this type.
pub(crate) fn write_row<R: Rows>(
    writer: &mut Writer,
    alloc: Global,
    rows: &R,
    of: DataType,
    columns: &[GroupColumn],
    group: &Numbered,
) -> Result<(), NoMemory>
    requires columns { AllByRecursion (IsShown (R.tables rows.now)) columns.now }
    requires legible { IsLegible (R.tables rows.now) group.now.1.key }
    ensures { OnOk result (Appends writer.old writer.new (row_tokens (R.tables rows.now) of columns.now group.now)) }
{
    open_array(writer)?;
    for column in columns {
        write_item(writer, alloc, rows, of, group, &column.item)?;
    }
    close_array(writer)?;
    Ok(())
}

// What a column shows of it.
fn write_item<R: Rows>(
    writer: &mut Writer,
    alloc: Global,
    rows: &R,
    of: DataType,
    group: &Numbered,
    item: &GroupItem,
) -> Result<(), NoMemory>
    requires fits { FitsItem (R.tables rows.now) item.now }
    requires legible { IsLegible (R.tables rows.now) group.now.1.key }
    ensures { OnOk result (Appends writer.old writer.new (item_tokens (R.tables rows.now) of group.now item.now)) }
{
    match item {
        GroupItem::Key => write_common(writer, rows, of, &group.1.key),
        GroupItem::Count => write_count(writer, u64::from(group.1.count)),
        GroupItem::Id => write_count(writer, id_of(group.0, &group.1.key)),
        GroupItem::At(path) => write_path(writer, alloc, rows, referred(&group.1.key), path),
    }
}

// What its records have in common: a reference is shown by its key.
fn write_common<R: Rows>(
    writer: &mut Writer,
    rows: &R,
    of: DataType,
    key: &GroupKey,
) -> Result<(), NoMemory>
    requires { IsLegible (R.tables rows.now) key.now }
    ensures { OnOk result (Appends writer.old writer.new (common_token (R.tables rows.now) of key.now ∷ [])) }
{
    match key {
        GroupKey::Ref(table, id) => write_key(writer, rows.key(*table, *id), of),
        GroupKey::Number(number) => write_number(writer, *number),
        GroupKey::Text(text) => write_text(writer, text),
        GroupKey::Truth(truth) => write_truth(writer, *truth),
    }
}

// `true` or `false`.
fn write_truth(writer: &mut Writer, truth: bool) -> Result<(), NoMemory>
    ensures { OnOk result (Appends writer.old writer.new (boolean truth ∷ [])) }
{
    writer.boolean(truth)?;
    Ok(())
}
