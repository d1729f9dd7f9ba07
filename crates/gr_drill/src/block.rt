// The block that a drilldown prints.
ghost use Rattle.std.specs.Prelude.{◌≡◌, ◌+◌, ◌≤◌, ◌∷◌, [], decimal, drop, length, take, IfOk, IsUtf8, OnOk};
ghost use Rattle.std.specs.List.{AllByRecursion};
ghost use Rattle.gr_drill.specs.Block.{block, block_of, group_block, shown};
ghost use Rattle.gr_drill.specs.Fits.{IsShowable, IsShown};
ghost use Rattle.gr_drill.specs.Inside.Legible.{AreLegible};
ghost use Rattle.gr_drill.specs.Inside.Tokens.{block_tokens};
ghost use Rattle.gr_values.specs.Tokens.{Appends};
ghost use Rattle.json.specs.Token.{begin_array, end_array, number};

use crate::drilldown::{Drilldown, GroupColumn};
use crate::grouping::groups;
use crate::headings::write_headings;
use crate::numbered::{Numbered, numbered};
use crate::rows::write_row;
use crate::worths::sort;
use gr_base::{Bytes, NoMemory, RecordId};
use gr_expr::Rows;
use gr_print::{Span, close_array, open_array, window, write_count};
use gr_schema::Schema;
use gr_values::DataType;
use json::Writer;
use std::alloc::Global;

/// The groups of hits, as they are shown: how many there are, the columns with their types, and the groups of the window of this offset and limit, as compact JSON.
pub fn group_block<R: Rows>(
    alloc: Global,
    schema: &Schema,
    rows: &R,
    hits: &[(RecordId, u32)],
    drilldown: &Drilldown,
    offset: i64,
    limit: i64,
) -> Result<Bytes, NoMemory>
    requires { IsShowable (R.tables rows.now) drilldown.now }
    ensures { IfOk result (λ text. text ≡ group_block schema.now (R.tables rows.now) drilldown.now offset limit hits.now) }
{
    let mut groups = numbered(alloc, groups(alloc, rows, hits, &drilldown.key)?)?;
    sort(rows, drilldown.order.as_slice(), &mut groups)?;
    let found = groups.len() as u64;
    let shown = within(&groups, window(found, offset, limit));
    let of = drilldown.key.shape.of;
    let columns = drilldown.columns.as_slice();
    block(alloc, schema, rows, of, columns, found, shown)
}

// The groups of a span.
fn within(groups: &[Numbered], span: Span) -> &[Numbered]
    requires { span.first + span.count ≤ length groups.now }
    ensures { result.now ≡ take span.count (drop span.first groups.now) }
{
    let first = span.first as usize;
    &groups[first..first + span.count as usize]
}

// How many groups there are, the columns, and the groups that are shown.
fn block<R: Rows>(
    alloc: Global,
    schema: &Schema,
    rows: &R,
    of: DataType,
    columns: &[GroupColumn],
    found: u64,
    shown: &[Numbered],
) -> Result<Bytes, NoMemory>
    requires columns { AllByRecursion (IsShown (R.tables rows.now)) columns.now }
    requires legible { AreLegible (R.tables rows.now) shown.now }
    ensures { IfOk result (λ text. text ≡ block schema.now (R.tables rows.now) of columns.now found shown.now) }
{
    let mut writer = Writer::new(Vec::new(alloc));
    write_block(&mut writer, alloc, schema, rows, of, columns, found, shown)?;
    Bytes::from_vec(alloc, writer.into_inner())
}

// The same, written.
fn write_block<R: Rows>(
    writer: &mut Writer,
    alloc: Global,
    schema: &Schema,
    rows: &R,
    of: DataType,
    columns: &[GroupColumn],
    found: u64,
    shown: &[Numbered],
) -> Result<(), NoMemory>
    requires columns { AllByRecursion (IsShown (R.tables rows.now)) columns.now }
    requires legible { AreLegible (R.tables rows.now) shown.now }
    ensures { OnOk result (Appends writer.old writer.new (block_tokens schema.now (R.tables rows.now) of columns.now found shown.now)) }
{
    open_array(writer)?;
    write_found(writer, found)?;
    write_headings(writer, schema, of, columns)?;
    for group in shown {
        write_row(writer, alloc, rows, of, columns, group)?;
    }
    close_array(writer)?;
    Ok(())
}

// How many groups there are.
fn write_found(writer: &mut Writer, found: u64) -> Result<(), NoMemory>
    ensures { OnOk result (Appends writer.old writer.new (begin_array ∷ number (decimal found) ∷ end_array ∷ [])) }
{
    open_array(writer)?;
    write_count(writer, found)?;
    close_array(writer)?;
    Ok(())
}
