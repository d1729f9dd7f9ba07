// The loads that put a table's records back.
ghost use Rattle.std.specs.Prelude.{◌≡◌, ◌++◌, IfOk, IsUtf8, Some};
ghost use Rattle.std.specs.List.{AllByRecursion};
ghost use Rattle.gr_db.specs.Fitting.{IsFitting};
ghost use Rattle.gr_dump.specs.Inside.Begun.{head, lead};
ghost use Rattle.gr_dump.specs.Loads.{keyed_load, keyless_load, load_of, reference_load, rows_of, value_load};
ghost use Rattle.gr_print.specs.Block.{row_text};
ghost use Rattle.gr_print.specs.Fits.{IsPrintable};
ghost use Rattle.gr_schema.specs.Schema.{table_at};

use crate::shown::{data_columns, kept, key_columns};
use crate::words::{with_bytes, with_word};
use gr_base::{NoMemory, RecordId, TableNo};
use gr_expr::Rows;
use gr_print::{OutColumn, with_names, with_row};
use gr_schema::{Schema, TableDef};
use std::alloc::Global;
use std::mem;

/// A keyed table that is no lexicon: its keys, and its values that are no references.
pub(crate) fn with_value_load<R: Rows>(
    alloc: Global,
    text: Vec<u8>,
    schema: &Schema,
    rows: &R,
    table: TableNo,
    home: &TableDef,
) -> Result<Vec<u8>, NoMemory>
    requires fits { IsFitting (record { schema = schema.now; tables = R.tables rows.now }) }
    requires there { table_at schema.now table ≡ Some home.now }
    ensures { IfOk result (λ made. made.items ≡ text.items ++ value_load schema.now (R.tables rows.now) table home.now) }
{
    if home.key.is_none() || home.tokenizer.is_some() {
        return Ok(text);
    }
    let columns = kept(alloc, data_columns(alloc, schema, table, home)?, false)?;
    with_keyed_load(alloc, text, schema, rows, table, home, columns)
}

/// A keyed table that has a reference column: its keys, and its references.
pub(crate) fn with_reference_load<R: Rows>(
    alloc: Global,
    text: Vec<u8>,
    schema: &Schema,
    rows: &R,
    table: TableNo,
    home: &TableDef,
) -> Result<Vec<u8>, NoMemory>
    requires fits { IsFitting (record { schema = schema.now; tables = R.tables rows.now }) }
    requires there { table_at schema.now table ≡ Some home.now }
    ensures { IfOk result (λ made. made.items ≡ text.items ++ reference_load schema.now (R.tables rows.now) table home.now) }
{
    if home.key.is_none() {
        return Ok(text);
    }
    let columns = kept(alloc, data_columns(alloc, schema, table, home)?, true)?;
    if columns.is_empty() {
        return Ok(text);
    }
    with_keyed_load(alloc, text, schema, rows, table, home, columns)
}

/// A keyless table: all its values.
pub(crate) fn with_keyless_load<R: Rows>(
    alloc: Global,
    text: Vec<u8>,
    schema: &Schema,
    rows: &R,
    table: TableNo,
    home: &TableDef,
) -> Result<Vec<u8>, NoMemory>
    requires fits { IsFitting (record { schema = schema.now; tables = R.tables rows.now }) }
    requires there { table_at schema.now table ≡ Some home.now }
    ensures { IfOk result (λ made. made.items ≡ text.items ++ keyless_load schema.now (R.tables rows.now) table home.now) }
{
    if home.key.is_some() {
        return Ok(text);
    }
    let columns = data_columns(alloc, schema, table, home)?;
    with_load(alloc, text, rows, table, home, columns.as_slice())
}

// The records of a table with their keys and what stands in these columns.
fn with_keyed_load<R: Rows>(
    alloc: Global,
    text: Vec<u8>,
    schema: &Schema,
    rows: &R,
    table: TableNo,
    home: &TableDef,
    columns: Vec<OutColumn>,
) -> Result<Vec<u8>, NoMemory>
    requires fits { IsFitting (record { schema = schema.now; tables = R.tables rows.now }) }
    requires there { table_at schema.now table ≡ Some home.now }
    requires printable { AllByRecursion (IsPrintable (R.tables rows.now)) columns.items }
    ensures { IfOk result (λ made. made.items ≡ text.items ++ keyed_load schema.now (R.tables rows.now) table home.now columns.items) }
{
    let mut columns = columns;
    let mut shown = key_columns(alloc, schema, table, home)?;
    shown.append(&mut columns)?;
    with_load(alloc, text, rows, table, home, shown.as_slice())
}

// A load of what columns show of the records of a table; nothing where there is no record.
fn with_load<R: Rows>(
    alloc: Global,
    text: Vec<u8>,
    rows: &R,
    table: TableNo,
    home: &TableDef,
    columns: &[OutColumn],
) -> Result<Vec<u8>, NoMemory>
    requires { AllByRecursion (IsPrintable (R.tables rows.now)) columns.now }
    ensures { IfOk result (λ made. made.items ≡ text.items ++ load_of home.now columns.now (rows_of (R.tables rows.now) columns.now table)) }
{
    let mut text = text;
    let mut row = Vec::new(alloc);
    let mut later = false;
    for n in 0..rows.last_id(table).0 {
        let id = RecordId(n + 1);
        if rows.is_alive(table, id) {
            text = with_led_row(alloc, text, &mut row, rows, home, columns, id, later)?;
            later = true;
        }
    }
    if later {
        with_bytes(text, b"\n]\n")
    } else {
        Ok(text)
    }
}

// What stands before a row, and the row of a record. `row` is room for it.
fn with_led_row<R: Rows>(
    alloc: Global,
    text: Vec<u8>,
    row: &mut Vec<u8>,
    rows: &R,
    home: &TableDef,
    columns: &[OutColumn],
    id: RecordId,
    later: bool,
) -> Result<Vec<u8>, NoMemory>
    requires { AllByRecursion (IsPrintable (R.tables rows.now)) columns.now }
    ensures { IfOk result (λ made. made.items ≡ text.items ++ (lead home.now columns.now later ++ row_text (R.tables rows.now) columns.now (id, 0))) }
{
    let text = with_lead(text, home, columns, later)?;
    with_record(alloc, text, row, rows, columns, id)
}

// The row of a record. It is written by itself first: a writer clears as much room ahead as it holds, up to 16 KiB, which for each row would take longer than
// the row.
fn with_record<R: Rows>(
    alloc: Global,
    text: Vec<u8>,
    row: &mut Vec<u8>,
    rows: &R,
    columns: &[OutColumn],
    id: RecordId,
) -> Result<Vec<u8>, NoMemory>
    requires { AllByRecursion (IsPrintable (R.tables rows.now)) columns.now }
    ensures { IfOk result (λ made. made.items ≡ text.items ++ row_text (R.tables rows.now) columns.now (id, 0)) }
{
    let mut held = mem::replace(row, Vec::new(alloc));
    held.clear();
    let held = with_row(alloc, held, rows, columns, (id, 0))?;
    let text = with_bytes(text, held.as_slice())?;
    *row = held;
    Ok(text)
}

// What stands before a row: the end of the row before it, where there is one, and otherwise the head of the load.
fn with_lead(
    text: Vec<u8>,
    home: &TableDef,
    columns: &[OutColumn],
    later: bool,
) -> Result<Vec<u8>, NoMemory>
    requires { AllByRecursion (λ column. IsUtf8 column.name) columns.now }
    ensures { IfOk result (λ made. made.items ≡ text.items ++ lead home.now columns.now later) }
{
    if later {
        with_bytes(text, b",\n")
    } else {
        with_head(text, home, columns)
    }
}

// What stands before the rows of a load.
fn with_head(text: Vec<u8>, home: &TableDef, columns: &[OutColumn]) -> Result<Vec<u8>, NoMemory>
    requires { AllByRecursion (λ column. IsUtf8 column.name) columns.now }
    ensures { IfOk result (λ made. made.items ≡ text.items ++ head home.now columns.now) }
{
    let text = with_bytes(text, b"load --table")?;
    let text = with_word(text, home.name.as_slice())?;
    let text = with_bytes(text, b"\n[\n")?;
    let text = with_names(text, columns)?;
    with_bytes(text, b",\n")
}
