// The lines that create index columns.
ghost use Rattle.std.specs.Prelude.{◌≡◌, ◌++◌, ◌∷◌, map, IfOk};
ghost use Rattle.std.specs.List.{flat_map, join_with_byte};
ghost use Rattle.std.specs.Str.{byte};
ghost use Rattle.gr_dump.specs.Dump.{index_line, index_line_of, sources_text};
ghost use Rattle.gr_dump.specs.Words.{field_name};

use crate::definitions::with_column_words;
use crate::words::{field_name, index_flags, table_name, with_bytes};
use gr_base::{ColumnNo, NoMemory, TableNo};
use gr_schema::{ColumnDef, Role, Schema, TableDef};
use gr_values::Field;

/// All index columns, in order of making.
pub(crate) fn with_index_lines(text: Vec<u8>, schema: &Schema) -> Result<Vec<u8>, NoMemory>
    ensures { IfOk result (λ made. made.items ≡ text.items ++ flat_map (index_line schema.now) schema.now.indexes) }
{
    let mut text = text;
    for index in schema.indexes() {
        text = with_index_line(text, schema, *index)?;
    }
    Ok(text)
}

// The index column of these numbers.
fn with_index_line(
    text: Vec<u8>,
    schema: &Schema,
    index: (TableNo, ColumnNo),
) -> Result<Vec<u8>, NoMemory>
    ensures { IfOk result (λ made. made.items ≡ text.items ++ index_line schema.now index) }
{
    let Some(home) = schema.def(index.0) else {
        return Ok(text);
    };
    match home.columns.get(index.1.0 as u64) {
        Some(column) => with_line_of(text, schema, home, column),
        None => Ok(text),
    }
}

// A column, where it is an index.
fn with_line_of(
    text: Vec<u8>,
    schema: &Schema,
    home: &TableDef,
    column: &ColumnDef,
) -> Result<Vec<u8>, NoMemory>
    ensures { IfOk result (λ made. made.items ≡ text.items ++ index_line_of schema.now home.now column.now column.now.role) }
{
    let Role::Index {
        target,
        sources,
        position,
        section,
    } = &column.role
    else {
        return Ok(text);
    };
    let flags = index_flags(*section, *position).as_bytes();
    let text = with_column_words(text, home, column, flags, table_name(schema, *target))?;
    let text = with_bytes(text, b" ")?;
    let text = with_sources(text, schema, *target, sources.as_slice())?;
    with_bytes(text, b"\n")
}

// The fields that an index reads, with commas between them.
fn with_sources(
    text: Vec<u8>,
    schema: &Schema,
    target: TableNo,
    sources: &[Field],
) -> Result<Vec<u8>, NoMemory>
    ensures { IfOk result (λ made. made.items ≡ text.items ++ sources_text schema.now target sources.now) }
{
    match schema.def(target) {
        Some(read) => with_field_names(text, read, sources),
        None => Ok(text),
    }
}

// The names of fields of a table's records, with commas between them.
fn with_field_names(text: Vec<u8>, home: &TableDef, fields: &[Field]) -> Result<Vec<u8>, NoMemory>
    ensures { IfOk result (λ made. made.items ≡ text.items ++ join_with_byte (byte ",") (map (field_name home.now) fields.now)) }
{
    let Some((first, others)) = fields.split_first() else {
        return Ok(text);
    };
    let mut text = with_bytes(text, field_name(home, *first))?;
    for field in others {
        text = with_later_name(text, home, *field)?;
    }
    Ok(text)
}

// A comma and the name of a field.
fn with_later_name(text: Vec<u8>, home: &TableDef, field: Field) -> Result<Vec<u8>, NoMemory>
    ensures { IfOk result (λ made. made.items ≡ text.items ++ byte "," ∷ field_name home.now field) }
{
    let text = with_bytes(text, b",")?;
    with_bytes(text, field_name(home, field))
}
