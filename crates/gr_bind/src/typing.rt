// Conditions and match columns, typed.
ghost use Rattle.std.specs.Prelude.{◌≡◌, ◌<◌, length, IfOk, IfSome, IsUtf8, Err};
ghost use Rattle.std.specs.Option.{option_map};
ghost use Rattle.gr_ast.specs.Columns.{AreMadeColumns};
ghost use Rattle.gr_ast.specs.Made.{IsMade};
ghost use Rattle.gr_base.specs.Failure.{Answers};
ghost use Rattle.gr_base.specs.declared.failure.Failure.{Failure};
ghost use Rattle.gr_base.specs.declared.fault.Fault.{Fault};
ghost use Rattle.gr_bind.specs.Columns.{columns_checked, columns_typed};
ghost use Rattle.gr_bind.specs.Inside.Told.{Tells};
ghost use Rattle.gr_bind.specs.Typing.{columns_given, typed};
ghost use Rattle.gr_db.specs.Db.{Db};
ghost use Rattle.gr_db.specs.Fitting.{IsFitting};
ghost use Rattle.gr_expr.specs.Fits.{Fits};
ghost use Rattle.gr_schema.specs.Schema.{Extends};

use crate::binder::Binder;
use crate::column::{Column, columns_typed};
use gr_base::{Failure, Fault, TableNo};
use gr_expr::{Ast, Expr, MatchColumns};
use gr_schema::Schema;
use sqlite_items::Items;
use std::alloc::Global;

/// What a query or a script means for a table: each name looked up, each literal made, and each operator with operands that it takes; or its first fault. The
/// match columns come first, then the tree from the left, each operand whole before its operator takes it or refuses it. `TypeMismatch`, `NoMatchColumn` and
/// `BadNumber` tell a byte place, and `NoSuchColumn` the whole path. What is found can be scored over each database that fits the schema, or one that has grown from it. It takes a time that
/// grows with the tree, and for each search with the schema's indexes.
pub fn bind(
    alloc: Global,
    schema: &Schema,
    table: TableNo,
    columns: Option<&MatchColumns>,
    tree: &Ast,
) -> Result<Expr, Failure<Fault>>
    requires there { table.0 < length schema.now.tables }
    requires columns { IfSome columns (λ columns. AreMadeColumns columns.now) }
    requires made { IsMade tree.now }
    ensures exact { Answers result (typed schema.now table (option_map (λ columns. columns.now) columns.entry) tree.now) }
    ensures utf8 { (why : Fault) → result ≡ Err (Failure.Refused why) → IsUtf8 why.name }
    ensures fit { (db : Db) → Extends db.schema schema.now → IsFitting db → IfOk result (Fits db.tables) }
{
    let columns = columns_given(alloc, schema, table, columns)?;
    let binder = Binder {
        alloc,
        schema,
        table,
        columns,
    };
    binder.condition(tree)
}

/// Whether match columns mean fields that words can be sought in, or the first fault: `NoSuchColumn` with the column's text, or `TypeMismatch` at its place.
pub fn check_columns(
    alloc: Global,
    schema: &Schema,
    table: TableNo,
    columns: &MatchColumns,
) -> Result<(), Failure<Fault>>
    requires there { table.0 < length schema.now.tables }
    requires made { AreMadeColumns columns.now }
    ensures exact { Answers result (columns_checked schema.now table columns.now) }
    ensures utf8 { (why : Fault) → result ≡ Err (Failure.Refused why) → IsUtf8 why.name }
{
    columns_typed(alloc, schema, table, columns)?;
    Ok(())
}

// What match columns mean, where there are some.
fn columns_given(
    alloc: Global,
    schema: &Schema,
    table: TableNo,
    columns: Option<&MatchColumns>,
) -> Result<Option<Items<Column>>, Failure<Fault>>
    requires there { table.0 < length schema.now.tables }
    requires columns { IfSome columns (λ columns. AreMadeColumns columns.now) }
    ensures { Tells result (columns_given schema.now table (option_map (λ columns. columns.now) columns.entry)) }
{
    match columns {
        Some(columns) => Ok(Some(columns_typed(alloc, schema, table, columns)?)),
        None => Ok(None),
    }
}
