// What a select shows.
ghost use Rattle.std.specs.Prelude.{◌≡◌, ◌++◌, true, IfErr, IfOk, OnOk, Some, is_some, map};
ghost use Rattle.std.specs.List.{AllByRecursion, flat_map};
ghost use Rattle.std.specs.List.Sorted.{IsStrictlyIncreasing};
ghost use Rattle.gr_base.specs.Failure.{Answers, result_map};
ghost use Rattle.gr_db.specs.Fitting.{IsFitting};
ghost use Rattle.gr_drill.specs.Fits.{IsShowable};
ghost use Rattle.gr_expr.specs.Fits.{Fits};
ghost use Rattle.gr_print.specs.Block.{window};
ghost use Rattle.gr_print.specs.Fits.{IsPrintable};
ghost use Rattle.gr_schema.specs.Schema.{table_at};
ghost use Rattle.gr_schema.specs.Wishes.{IsTold, home_of};
ghost use Rattle.gr_schema.specs.declared.definition.TableDef.{TableDef};
ghost use Rattle.gr_select.specs.Inside.Layouts.{FitsLayout, behind_comma};
ghost use Rattle.gr_select.specs.Select.{body, db_of, groups_shown, layout_given, rows_shown, select, shown};
ghost use Rattle.gr_select.specs.Texts.{AreMade};
ghost use Rattle.gr_sort.specs.Order.{ordered};

use crate::conditions::condition;
use crate::layout::{GroupLayout, Layout, RowLayout, layout_given};
use crate::texts::Texts;
use gr_base::{Bytes, Failure, Fault, NoMemory, RecordId, TableNo};
use gr_cmdline::Args;
use gr_drill::group_block;
use gr_expr::{Expr, Rows};
use gr_plan::{Blocks, hits};
use gr_print::{Span, block, window};
use gr_schema::Schema;
use gr_sort::{SortKey, order_keeps_and_sorts, sorted};
use std::alloc::Global;

/// The body of the reply to a select of a table that is there, or its first fault: of the match columns, the query and the filter, of each its text's and then its
/// types'; then of the sort keys, the output columns, the offset and the limit;
/// and where a drilldown is given, of each of its keys, and of its own offset and limit. It looks at a record of the table at most once for its score, and prints no row that is not shown.
pub fn select<B: Blocks>(
    alloc: Global,
    schema: &Schema,
    rows: &B,
    table: TableNo,
    args: &Args,
    texts: &Texts,
) -> Result<Bytes, Failure<Fault>>
    requires there { is_some (table_at schema.now table) ≡ true }
    requires fitting { IsFitting (db_of schema.now (B.tables rows.now)) }
    requires made { AreMade texts.now }
    ensures exact { (home : TableDef) → table_at schema.now table ≡ Some home
        → Answers result (select (db_of schema.now (B.tables rows.now)) (home_of table home) args.now.given texts.now) }
    ensures text { IfErr result IsTold }
{
    let condition = condition(alloc, schema, table, texts)?;
    laid_out(alloc, schema, rows, table, args, &condition)
}

// The records that a condition finds, as they are to be shown, or the first fault of how they are to be shown.
fn laid_out<B: Blocks>(
    alloc: Global,
    schema: &Schema,
    rows: &B,
    table: TableNo,
    args: &Args,
    condition: &Expr,
) -> Result<Bytes, Failure<Fault>>
    requires there { is_some (table_at schema.now table) ≡ true }
    requires fitting { IsFitting (db_of schema.now (B.tables rows.now)) }
    requires fits { Fits (B.tables rows.now) condition.now }
    ensures exact { (home : TableDef) → table_at schema.now table ≡ Some home
        → Answers result (result_map (shown (db_of schema.now (B.tables rows.now)) table condition.now) (layout_given schema.now (home_of table home) args.now.given)) }
    ensures text { IfErr result IsTold }
{
    let layout = layout_given(alloc, schema, table, args)?;
    Ok(shown(alloc, schema, rows, table, condition, &layout)?)
}

// The records that a condition finds, as they are shown.
fn shown<B: Blocks>(
    alloc: Global,
    schema: &Schema,
    rows: &B,
    table: TableNo,
    condition: &Expr,
    layout: &Layout,
) -> Result<Bytes, NoMemory>
    requires fits { Fits (B.tables rows.now) condition.now }
    requires layout { FitsLayout (B.tables rows.now) layout.now }
    ensures { IfOk result (λ text. text ≡ shown (db_of schema.now (B.tables rows.now)) table condition.now layout.now) }
{
    let hits = hits(alloc, rows, table, condition)?;
    body(alloc, schema, rows, layout, hits.as_slice())
}

// Hits as they are shown: the rows, and then the groups.
fn body<R: Rows>(
    alloc: Global,
    schema: &Schema,
    rows: &R,
    layout: &Layout,
    hits: &[(RecordId, u32)],
) -> Result<Bytes, NoMemory>
    requires order { IsStrictlyIncreasing (map (λ hit. hit.0.0) hits.now) }
    requires fits { FitsLayout (R.tables rows.now) layout.now }
    ensures { IfOk result (λ text. text ≡ body (db_of schema.now (R.tables rows.now)) layout.now hits.now) }
{
    let shown = rows_shown(alloc, schema, rows, &layout.rows, hits)?;
    let mut text = Vec::with_capacity(alloc, shown.as_slice().len().saturating_add(2))?;
    text.push(b'[')?;
    text.extend_from_slice(shown.as_slice())?;
    push_groups(&mut text, alloc, schema, rows, layout, hits)?;
    text.push(b']')?;
    Bytes::from_vec(alloc, text)
}

// The rows of the window.
fn rows_shown<R: Rows>(
    alloc: Global,
    schema: &Schema,
    rows: &R,
    layout: &RowLayout,
    hits: &[(RecordId, u32)],
) -> Result<Bytes, NoMemory>
    requires order { IsStrictlyIncreasing (map (λ hit. hit.0.0) hits.now) }
    requires printable { AllByRecursion (IsPrintable (R.tables rows.now)) layout.now.columns }
    ensures { IfOk result (λ text. text ≡ rows_shown (db_of schema.now (R.tables rows.now)) layout.now hits.now) }
{
    let found = hits.len() as u64;
    let span = span_of(found, layout);
    let shown = sorted(alloc, rows, layout.keys.as_slice(), hits, span)?;
    let columns = layout.columns.as_slice();
    block(alloc, schema, rows, columns, found, shown.as_slice())
}

// The rows that are shown of so many.
fn span_of(found: u64, layout: &RowLayout) -> Span
    ensures { result ≡ window found layout.now.offset layout.now.limit }
{
    window(found, layout.offset, layout.limit)
}

// Writes the groups behind the rows, each block behind a comma.
fn push_groups<R: Rows>(
    text: &mut Vec<u8>,
    alloc: Global,
    schema: &Schema,
    rows: &R,
    layout: &Layout,
    hits: &[(RecordId, u32)],
) -> Result<(), NoMemory>
    requires order { IsStrictlyIncreasing (map (λ hit. hit.0.0) hits.now) }
    requires showable { AllByRecursion (IsShowable (R.tables rows.now)) layout.now.groups.drilldowns }
    ensures { OnOk result (text.new.items ≡ text.old.items ++ flat_map behind_comma (groups_shown (db_of schema.now (R.tables rows.now)) layout.now.groups (ordered (R.tables rows.now) layout.now.rows.keys hits.now))) }
{
    if layout.groups.drilldowns.as_slice().is_empty() {
        return Ok(());
    }
    let hits = all_sorted(alloc, rows, layout.rows.keys.as_slice(), hits)?;
    push_blocks(text, alloc, schema, rows, &layout.groups, hits.as_slice())
}

// All hits in their order.
fn all_sorted<R: Rows>(
    alloc: Global,
    rows: &R,
    keys: &[SortKey],
    hits: &[(RecordId, u32)],
) -> Result<Vec<(RecordId, u32)>, NoMemory>
    requires { IsStrictlyIncreasing (map (λ hit. hit.0.0) hits.now) }
    ensures { IfOk result (λ shown. shown.items ≡ ordered (R.tables rows.now) keys.now hits.now) }
{
    order_keeps_and_sorts();
    let all = Span {
        first: 0,
        count: hits.len() as u64,
    };
    sorted(alloc, rows, keys, hits, all)
}

// Writes the groups of hits, each block behind a comma.
fn push_blocks<R: Rows>(
    text: &mut Vec<u8>,
    alloc: Global,
    schema: &Schema,
    rows: &R,
    layout: &GroupLayout,
    hits: &[(RecordId, u32)],
) -> Result<(), NoMemory>
    requires { AllByRecursion (IsShowable (R.tables rows.now)) layout.now.drilldowns }
    ensures { OnOk result (text.new.items ≡ text.old.items ++ flat_map behind_comma (groups_shown (db_of schema.now (R.tables rows.now)) layout.now hits.now)) }
{
    for drilldown in layout.drilldowns.as_slice() {
        let block = group_block(
            alloc,
            schema,
            rows,
            hits,
            drilldown,
            layout.offset,
            layout.limit,
        )?;
        push_block(text, &block)?;
    }
    Ok(())
}

// Writes a block behind a comma.
fn push_block(text: &mut Vec<u8>, block: &Bytes) -> Result<(), NoMemory>
    ensures { OnOk result (text.new.items ≡ text.old.items ++ behind_comma block.now) }
{
    text.push(b',')?;
    text.extend_from_slice(block.as_slice())?;
    Ok(())
}
