// The block that a select prints.
ghost use Rattle.std.specs.Prelude.{◌≡◌, ◌∷◌, [], decimal, IfOk, IsUtf8, OnOk};
ghost use Rattle.std.specs.List.{AllByRecursion};
ghost use Rattle.gr_print.specs.Block.{block};
ghost use Rattle.gr_print.specs.Fits.{IsPrintable};
ghost use Rattle.gr_print.specs.Inside.Tokens.{block_tokens};
ghost use Rattle.gr_values.specs.Tokens.{Appends};
ghost use Rattle.json.specs.Token.{begin_array, end_array, number};

use crate::OutColumn;
use crate::headings::write_headings;
use crate::items::write_row;
use crate::values::{close_array, open_array, write_count};
use gr_base::{Bytes, NoMemory, RecordId};
use gr_expr::Rows;
use gr_schema::Schema;
use json::Writer;
use std::alloc::Global;

/// How many hits were found, the columns with their types, and the hits that are shown, as compact JSON. It takes the time of what it prints.
pub fn block<R: Rows>(
    alloc: Global,
    schema: &Schema,
    rows: &R,
    columns: &[OutColumn],
    found: u64,
    shown: &[(RecordId, u32)],
) -> Result<Bytes, NoMemory>
    requires printable { AllByRecursion (IsPrintable (R.tables rows.now)) columns.now }
    ensures exact { IfOk result (λ text. text ≡ block schema.now (R.tables rows.now) columns.now found shown.now) }
    ensures utf8 { IfOk result IsUtf8 }
{
    let mut writer = Writer::new(Vec::new(alloc));
    write_block(&mut writer, alloc, schema, rows, columns, found, shown)?;
    Bytes::from_vec(alloc, writer.into_inner())
}

// The same with what is written with it.
fn write_block<R: Rows>(
    writer: &mut Writer,
    alloc: Global,
    schema: &Schema,
    rows: &R,
    columns: &[OutColumn],
    found: u64,
    shown: &[(RecordId, u32)],
) -> Result<(), NoMemory>
    requires { AllByRecursion (IsPrintable (R.tables rows.now)) columns.now }
    ensures { OnOk result (Appends writer.old writer.new (block_tokens schema.now (R.tables rows.now) columns.now found shown.now)) }
{
    open_array(writer)?;
    write_found(writer, found)?;
    write_headings(writer, schema, columns)?;
    for hit in shown {
        write_row(writer, alloc, rows, columns, *hit)?;
    }
    close_array(writer)?;
    Ok(())
}

// How many hits were found.
fn write_found(writer: &mut Writer, found: u64) -> Result<(), NoMemory>
    ensures { OnOk result (Appends writer.old writer.new (begin_array ∷ number (decimal found) ∷ end_array ∷ [])) }
{
    open_array(writer)?;
    write_count(writer, found)?;
    close_array(writer)?;
    Ok(())
}
