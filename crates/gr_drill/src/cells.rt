// Counting what stands in a cell.
ghost use Rattle.std.specs.Prelude.{◌≡◌, ◌∷◌, [], List, OnOk, Option, map};
ghost use Rattle.std.specs.List.{filter_map};
ghost use Rattle.std.specs.Option.{option_map, option_to_list};
ghost use Rattle.gr_drill.specs.Groups.{cell_keys, reference_key};
ghost use Rattle.gr_drill.specs.Inside.Lent.{lent};
ghost use Rattle.gr_drill.specs.Inside.Tally.{lent_groups, with_all};
ghost use Rattle.gr_expr.specs.Tables.{Records};
ghost use Rattle.gr_expr.specs.declared.groups.GroupKey.{GroupKey};
ghost use Rattle.gr_values.specs.Defaults.{default_of, plain_default};
ghost use Rattle.gr_values.specs.View.{shown};

use crate::lent_key::LentKey;
use crate::tally::{Tally, count, count_some};
use gr_base::{Bytes, NoMemory, RecordId, TableNo};
use gr_expr::Rows;
use gr_values::{CellView, DataType, Shape};

/// Counts what stands in a cell: each element of a list, and no reference to a record that is not there.
pub(crate) fn count_cell<'a, R: Rows>(
    tally: &mut Tally<'a>,
    rows: &'a R,
    to: Option<TableNo>,
    cell: CellView<'a>,
) -> Result<(), NoMemory>
    ensures { OnOk result (lent_groups tally.new.entries ≡ with_all (lent_groups tally.old.entries) (cell_keys (R.tables rows.now) to (shown cell.entry))) }
{
    match cell {
        CellView::Bool(truth) => count(tally, LentKey::Truth(truth)),
        CellView::Int(number) => count(tally, LentKey::Number(number)),
        CellView::Text(text) => count(tally, LentKey::Text(text.as_slice())),
        CellView::Ref(id) => count_some(tally, reference_key(rows, to, id)),
        CellView::RefList(ids) => count_references(tally, rows, to, ids),
        CellView::IntList(numbers) => count_numbers(tally, numbers),
        CellView::TextList(texts) => count_texts(tally, texts),
    }
}

// The record that is referred to, where it is there.
fn reference_key<R: Rows>(rows: &R, to: Option<TableNo>, id: RecordId) -> Option<LentKey<'static>>
    ensures { option_map lent result ≡ reference_key (R.tables rows.now) to id }
{
    let table = to?;
    if rows.is_alive(table, id) {
        Some(LentKey::Ref(table, id))
    } else {
        None
    }
}

fn count_references<R: Rows>(
    tally: &mut Tally<'_>,
    rows: &R,
    to: Option<TableNo>,
    ids: &[RecordId],
) -> Result<(), NoMemory>
    ensures { OnOk result (lent_groups tally.new.entries ≡ with_all (lent_groups tally.old.entries) (filter_map (reference_key (R.tables rows.now) to) ids.now)) }
{
    for id in ids {
        count_some(tally, reference_key(rows, to, *id))?;
    }
    Ok(())
}

fn count_numbers(tally: &mut Tally<'_>, numbers: &[i128]) -> Result<(), NoMemory>
    ensures { OnOk result (lent_groups tally.new.entries ≡ with_all (lent_groups tally.old.entries) (map GroupKey.Number numbers.now)) }
{
    for number in numbers {
        count(tally, LentKey::Number(*number))?;
    }
    Ok(())
}

fn count_texts<'a>(tally: &mut Tally<'a>, texts: &'a [Bytes]) -> Result<(), NoMemory>
    ensures { OnOk result (lent_groups tally.new.entries ≡ with_all (lent_groups tally.old.entries) (map GroupKey.Text texts.now)) }
{
    for text in texts {
        count(tally, LentKey::Text(text.as_slice()))?;
    }
    Ok(())
}

/// What the default of a shape counts for: nothing where it is a reference or a list.
pub(crate) fn default_key(shape: Shape) -> Option<LentKey<'static>>
    ensures { (tables : List Records) (to : Option TableNo) → option_to_list (option_map lent result) ≡ cell_keys tables to (default_of shape) }
{
    if shape.list || shape.reference {
        None
    } else {
        Some(plain_key(shape.of))
    }
}

// What the default of a type counts for.
fn plain_key(of: DataType) -> LentKey<'static>
    ensures { (tables : List Records) (to : Option TableNo) → lent result ∷ [] ≡ cell_keys tables to (plain_default of) }
{
    if of.is_bool() {
        LentKey::Truth(false)
    } else if of.range().is_some() {
        LentKey::Number(0)
    } else {
        LentKey::Text(b"")
    }
}
