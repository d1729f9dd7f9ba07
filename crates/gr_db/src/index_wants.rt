// The tokens that a new index wants.
ghost use Rattle.std.specs.Prelude.{◌≡◌, ◌++◌, [], IfOk, OnOk};
ghost use Rattle.std.specs.List.{filter_map, flat_map};
ghost use Rattle.std.specs.Option.{option_and_then, option_copied, option_map_or};
ghost use Rattle.gr_db.specs.Entry.{AreReadable, IsReadableTarget};
ghost use Rattle.gr_db.specs.Wants.{new_index_wants, source_wants, text_in};
ghost use Rattle.gr_expr.specs.Tables.{record_at, records_of};

use crate::Want;
use crate::tokens::push_index_wants;
use gr_base::{Bytes, ColumnNo, NoMemory, RecordId, TableNo};
use gr_expr::Rows;
use gr_schema::{Role, Schema};
use gr_values::{CellView, Field, Key};
use std::alloc::Global;

/// The tokens that a new index wants, in order: for each record of its target by rising id, those of its sources. The schema has the index, and the rows are those
/// of its tables.
pub fn new_index_wants<R: Rows>(
    alloc: Global,
    schema: &Schema,
    rows: &R,
    index: (TableNo, ColumnNo),
    role: &Role,
) -> Result<Vec<Want>, NoMemory>
    requires { IsReadableTarget (R.Rows.tables rows.now) role.now }
    ensures { IfOk result (λ wants. wants.items ≡ new_index_wants (record { schema = schema.now; tables = R.Rows.tables rows.now }) index role.now) }
{
    let mut wants = Vec::new(alloc);
    match role {
        Role::Index {
            target,
            sources,
            ..
        } => {
            push_table(
                alloc,
                &mut wants,
                schema,
                rows,
                index,
                *target,
                sources.as_slice(),
            )?;
            Ok(wants)
        }
        _ => Ok(wants),
    }
}

// Adds the tokens of the records of a table.
fn push_table<R: Rows>(
    alloc: Global,
    wants: &mut Vec<Want>,
    schema: &Schema,
    rows: &R,
    index: (TableNo, ColumnNo),
    target: TableNo,
    sources: &[Field],
) -> Result<(), NoMemory>
    requires { AreReadable (R.Rows.tables rows.now) target }
    ensures { OnOk result (wants.new.items ≡ wants.old.items ++ flat_map (λ found. flat_map (source_wants schema.now index found) sources.now)
        (filter_map (λ found. found) (records_of (R.Rows.tables rows.now) target))) }
{
    let given = rows.last_id(target).0;
    for place in 0..given {
        let id = RecordId(place + 1);
        push_record(alloc, wants, schema, rows, index, target, id, sources)?;
    }
    Ok(())
}

// Adds the tokens of a record, where it is there.
fn push_record<R: Rows>(
    alloc: Global,
    wants: &mut Vec<Want>,
    schema: &Schema,
    rows: &R,
    index: (TableNo, ColumnNo),
    target: TableNo,
    id: RecordId,
    sources: &[Field],
) -> Result<(), NoMemory>
    requires { AreReadable (R.Rows.tables rows.now) target }
    ensures { OnOk result (wants.new.items ≡ wants.old.items ++ option_map_or (λ found. flat_map (source_wants schema.now index found) sources.now)
        (record_at (R.Rows.tables rows.now) target id) []) }
{
    for source in sources {
        push_source(alloc, wants, schema, rows, index, target, id, *source)?;
    }
    Ok(())
}

// Adds the tokens of a record's source, where the record is there.
fn push_source<R: Rows>(
    alloc: Global,
    wants: &mut Vec<Want>,
    schema: &Schema,
    rows: &R,
    index: (TableNo, ColumnNo),
    target: TableNo,
    id: RecordId,
    source: Field,
) -> Result<(), NoMemory>
    requires { AreReadable (R.Rows.tables rows.now) target }
    ensures { OnOk result (wants.new.items ≡ wants.old.items ++ option_map_or (λ found. source_wants schema.now index found source)
        (record_at (R.Rows.tables rows.now) target id) []) }
{
    match source_text(rows, target, id, source) {
        Some(text) => push_index_wants(alloc, wants, schema, text.as_text(), index),
        None => Ok(()),
    }
}

// The text of a record's field, lent.
fn source_text<R: Rows>(rows: &R, target: TableNo, id: RecordId, source: Field) -> Option<&Bytes>
    ensures { option_copied result ≡ option_and_then (λ found. text_in found source) (record_at (R.Rows.tables rows.now) target id) }
{
    match source {
        Field::Id => None,
        Field::Key => match rows.key(target, id) {
            Some(Key::Text(text)) => Some(text),
            _ => None,
        },
        Field::Column(column) => match rows.cell(target, id, column) {
            Some(CellView::Text(text)) => Some(text),
            _ => None,
        },
    }
}
