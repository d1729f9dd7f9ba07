// What match columns mean.
ghost use Rattle.std.specs.Prelude.{◌≡◌, ◌<◌, ◌∷◌, [], All, IfOk, length};
ghost use Rattle.gr_ast.specs.Columns.{IsMadeColumn};
ghost use Rattle.gr_bind.specs.Columns.{by_how, by_path, column_typed, columns_typed, path_columns, table_behind};
ghost use Rattle.gr_bind.specs.Inside.Told.{Tells};

use crate::index::index_columns;
use crate::kinds::{is_text_field, takes_text};
use crate::refused::refused;
use gr_base::{Failure, Fault, FaultKind, NoMemory, TableNo};
use gr_expr::{By, MatchColumn, MatchColumns};
use gr_schema::Schema;
use gr_tokens::How;
use gr_values::Path;
use sqlite_items::Items;
use std::alloc::Global;

/// A field that words are sought in.
#[derive(Drop)]
pub struct Column {
    /// By what its score is multiplied.
    pub weight: u32,
    /// The field.
    pub path: Path,
    /// How it is read.
    pub by: By,
}

// What match columns mean, in their order, or the first fault.
pub(crate) fn columns_typed(
    alloc: Global,
    schema: &Schema,
    table: TableNo,
    columns: &MatchColumns,
) -> Result<Items<Column>, Failure<Fault>>
    requires there { table.0 < length schema.now.tables }
    requires made { All IsMadeColumn columns.now }
    ensures { Tells result (columns_typed schema.now table columns.now) }
{
    let mut all = Items::new(alloc);
    for of in columns.as_slice() {
        let more = column_typed(alloc, schema, table, of)?;
        all.append(more)?;
    }
    Ok(all)
}

// What a match column means: a path, or the sources of an index.
fn column_typed(
    alloc: Global,
    schema: &Schema,
    table: TableNo,
    of: &MatchColumn,
) -> Result<Items<Column>, Failure<Fault>>
    requires there { table.0 < length schema.now.tables }
    requires made { IsMadeColumn of.now }
    ensures { Tells result (column_typed schema.now table of.now) }
{
    match schema.resolve(alloc, table, of.path.as_slice()) {
        Ok(path) => path_columns(alloc, schema, of, path),
        Err(Failure::Refused(_)) => index_columns(alloc, schema, table, of),
        Err(Failure::NoMemory) => Err(Failure::NoMemory),
    }
}

// A match column that is a path.
fn path_columns(
    alloc: Global,
    schema: &Schema,
    of: &MatchColumn,
    path: Path,
) -> Result<Items<Column>, Failure<Fault>>
    ensures { Tells result (path_columns schema.now of.now path) }
{
    if !takes_text(&path) {
        return refused(alloc, FaultKind::TypeMismatch, of.at);
    }
    let by = by_path(schema, &path);
    let weight = of.weight;
    Ok(one(alloc, Column { weight, path, by })?)
}

fn one(alloc: Global, column: Column) -> Result<Items<Column>, NoMemory>
    ensures { IfOk result (λ columns. columns ≡ column ∷ []) }
{
    let mut columns = Items::new(alloc);
    columns.push(column)?;
    Ok(columns)
}

// What a search in a field compares.
pub(crate) fn by_path(schema: &Schema, path: &Path) -> By
    ensures { result ≡ by_path schema.now path.now }
{
    if is_text_field(path) {
        by_how(schema.how(table_behind(path), path.last))
    } else {
        By::Element
    }
}

fn by_how(how: How) -> By
    ensures { result ≡ by_how how }
{
    match how {
        How::Chars => By::Chars,
        How::Words => By::Words,
    }
}

// The table of the record at which a path's field is read.
fn table_behind(path: &Path) -> TableNo
    ensures { result ≡ table_behind path.now.table path.now.through }
{
    match path.through.as_slice().last() {
        Some(hop) => hop.to,
        None => path.table,
    }
}
