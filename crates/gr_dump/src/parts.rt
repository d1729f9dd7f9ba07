// The parts of a dump that go table by table.
ghost use Rattle.std.specs.Prelude.{◌≡◌, ◌++◌, IfOk, Some};
ghost use Rattle.gr_db.specs.Fitting.{IsFitting};
ghost use Rattle.gr_dump.specs.Dump.{each};
ghost use Rattle.gr_dump.specs.Inside.Parts.{part_of};
ghost use Rattle.gr_schema.specs.Schema.{table_at};

use crate::definitions::{with_data_lines, with_lexicon_line, with_table_line};
use crate::loads::{with_keyless_load, with_reference_load, with_value_load};
use gr_base::{NoMemory, TableNo};
use gr_expr::Rows;
use gr_schema::{Schema, TableDef};
use std::alloc::Global;

/// A part of a dump.
#[derive(Clone, Copy)]
pub(crate) enum Part {
    /// The tables that are no lexicons.
    Tables,
    /// The data columns.
    Columns,
    /// The records of keyed tables, without their references.
    Values,
    /// The references of the records of keyed tables.
    References,
    /// The records of keyless tables.
    Keyless,
    /// The lexicons.
    Lexicons,
}

/// A text, and a part of the dump of all tables after it.
pub(crate) fn with_part<R: Rows>(
    alloc: Global,
    text: Vec<u8>,
    schema: &Schema,
    rows: &R,
    part: Part,
) -> Result<Vec<u8>, NoMemory>
    requires { IsFitting (record { schema = schema.now; tables = R.tables rows.now }) }
    ensures { IfOk result (λ made. made.items ≡ text.items ++ each schema.now (part_of schema.now (R.tables rows.now) part)) }
{
    let mut text = text;
    for n in 0..schema.table_count() as u32 {
        let table = TableNo(n);
        if let Some(home) = schema.def(table) {
            text = with_table(alloc, text, schema, rows, part, table, home)?;
        }
    }
    Ok(text)
}

// A part of the dump of one table.
fn with_table<R: Rows>(
    alloc: Global,
    text: Vec<u8>,
    schema: &Schema,
    rows: &R,
    part: Part,
    table: TableNo,
    home: &TableDef,
) -> Result<Vec<u8>, NoMemory>
    requires fits { IsFitting (record { schema = schema.now; tables = R.tables rows.now }) }
    requires there { table_at schema.now table ≡ Some home.now }
    ensures { IfOk result (λ made. made.items ≡ text.items ++ part_of schema.now (R.tables rows.now) part table home.now) }
{
    match part {
        Part::Tables => with_table_line(text, home),
        Part::Columns => with_data_lines(text, schema, home),
        Part::Values => with_value_load(alloc, text, schema, rows, table, home),
        Part::References => with_reference_load(alloc, text, schema, rows, table, home),
        Part::Keyless => with_keyless_load(alloc, text, schema, rows, table, home),
        Part::Lexicons => with_lexicon_line(text, home),
    }
}
