// The condition of a select, typed.
ghost use Rattle.std.specs.Prelude.{◌≡◌, true, IfErr, IfOk, IfSome, IsUtf8, Ok, Result, is_some};
ghost use Rattle.std.specs.Option.{option_map};
ghost use Rattle.gr_ast.specs.Columns.{AreMadeColumns};
ghost use Rattle.gr_ast.specs.Made.{IsMade};
ghost use Rattle.gr_base.specs.Failure.{Answers};
ghost use Rattle.gr_base.specs.declared.fault.Fault.{Fault};
ghost use Rattle.gr_db.specs.Condition.{IsConditionFor};
ghost use Rattle.gr_db.specs.Db.{Db};
ghost use Rattle.gr_db.specs.Fitting.{IsFitting};
ghost use Rattle.gr_expr.specs.Fits.{Fits};
ghost use Rattle.gr_schema.specs.Schema.{Extends, table_at};
ghost use Rattle.gr_schema.specs.Wishes.{IsTold};
ghost use Rattle.gr_select.specs.Condition.{both, columns_in, columns_told, condition, condition_told, in_text, told_in};
ghost use Rattle.gr_select.specs.Texts.{AreMade, OfTree};

use crate::faults::refused_at;
use crate::texts::Texts;
use gr_ast::{Ast, Join, MatchColumns};
use gr_base::{Bytes, Failure, Fault, NoMemory, TableNo};
use gr_bind::{bind, check_columns};
use gr_cmdline::Param;
use gr_expr::{Expr, JoinedExpr};
use gr_schema::Schema;
use gr_text::TextRefusal;
use sqlite_items::{Boxed, Items};
use std::alloc::Global;

/// The condition of a query and a filter, or the first fault: of the match columns, then of the query, then of the filter; of each its text's, then its types'.
/// A fault with a place in a text is told by the name of the text's parameter.
pub fn condition(
    alloc: Global,
    schema: &Schema,
    table: TableNo,
    texts: &Texts,
) -> Result<Expr, Failure<Fault>>
    requires there { is_some (table_at schema.now table) ≡ true }
    requires made { AreMade texts.now }
    ensures exact { Answers result (condition schema.now table texts.now) }
    ensures fit { IfOk result (IsConditionFor schema.now) }
    ensures text { IfErr result IsTold }
{
    let searched = columns_told(alloc, schema, table, &texts.columns);
    told_in(alloc, Param::MatchColumns, searched)?;
    let columns = columns_in(&texts.columns);
    let query = condition_told(alloc, schema, table, columns, &texts.query);
    let query = told_in(alloc, Param::Query, query)?;
    let filter = condition_told(alloc, schema, table, None, &texts.filter);
    let filter = told_in(alloc, Param::Filter, filter)?;
    Ok(both(alloc, query, filter)?)
}

// Whether match columns, where they are given, can be searched.
fn columns_told(
    alloc: Global,
    schema: &Schema,
    table: TableNo,
    reading: &Option<Result<MatchColumns, TextRefusal>>,
) -> Result<(), Failure<Fault>>
    requires there { is_some (table_at schema.now table) ≡ true }
    requires made { OfTree AreMadeColumns reading.now }
    ensures exact { Answers result (columns_told schema.now table reading.now) }
    ensures text { IfErr result IsTold }
{
    match reading {
        None => Ok(()),
        Some(Ok(columns)) => check_columns(alloc, schema, table, columns),
        Some(Err(refusal)) => Err(refused_at(alloc, refusal.kind, refusal.at)),
    }
}

// The match columns, where they are given, lent.
fn columns_in(reading: &Option<Result<MatchColumns, TextRefusal>>) -> Option<&MatchColumns>
    requires { OfTree AreMadeColumns reading.now }
    ensures exact { option_map (λ columns. columns.now) result ≡ columns_in reading.now }
    ensures made { IfSome result (λ columns. AreMadeColumns columns.now) }
{
    match reading {
        Some(Ok(columns)) => Some(columns),
        _ => None,
    }
}

// A query or a filter, where it is given.
fn condition_told(
    alloc: Global,
    schema: &Schema,
    table: TableNo,
    columns: Option<&MatchColumns>,
    reading: &Option<Result<Ast, TextRefusal>>,
) -> Result<Option<Expr>, Failure<Fault>>
    requires there { is_some (table_at schema.now table) ≡ true }
    requires columns { IfSome columns (λ columns. AreMadeColumns columns.now) }
    requires made { OfTree IsMade reading.now }
    ensures exact { Answers result (condition_told schema.now table (option_map (λ columns. columns.now) columns.entry) reading.now) }
    ensures fit { (db : Db) → Extends db.schema schema.now → IsFitting db → IfOk result (λ condition. IfSome condition (Fits db.tables)) }
    ensures text { IfErr result IsTold }
{
    match reading {
        None => Ok(None),
        Some(Ok(tree)) => Ok(Some(bind(alloc, schema, table, columns, tree)?)),
        Some(Err(refusal)) => Err(refused_at(alloc, refusal.kind, refusal.at)),
    }
}

// What was found in a parameter's text, or its fault; one that has a place is told by the parameter's name.
fn told_in<T>(
    alloc: Global,
    param: Param,
    found: Result<T, Failure<Fault>>,
) -> Result<T, Failure<Fault>>
    requires { IfErr found IsTold }
    ensures exact { (meant : Result T Fault) → Answers found meant → Answers result (told_in param meant) }
    ensures same { IfOk result (λ value. found ≡ Ok value) }
    ensures text { IfErr result IsTold }
{
    match found {
        Err(Failure::Refused(fault)) => Err(Failure::Refused(in_text(alloc, param, fault)?)),
        found => found,
    }
}

// A fault in a parameter's text.
fn in_text(alloc: Global, param: Param, fault: Fault) -> Result<Fault, NoMemory>
    requires { IsUtf8 fault.name }
    ensures exact { IfOk result (λ told. told ≡ in_text param fault) }
    ensures text { IfOk result (λ told. IsUtf8 told.name) }
{
    match fault.at {
        Some(_) => Ok(Fault {
            name: Bytes::from_slice(alloc, param.name().as_bytes())?,
            ..fault
        }),
        None => Ok(fault),
    }
}

// Both conditions joined, the query first; with neither, every record.
fn both(alloc: Global, query: Option<Expr>, filter: Option<Expr>) -> Result<Expr, NoMemory>
    ensures { IfOk result (λ condition. condition ≡ both query filter) }
{
    match (query, filter) {
        (None, None) => Ok(Expr::All),
        (Some(query), None) => Ok(query),
        (None, Some(filter)) => Ok(filter),
        (Some(query), Some(filter)) => {
            let mut rest = Items::new(alloc);
            rest.push(JoinedExpr {
                join: Join::And,
                of: filter,
            })?;
            Ok(Expr::Chain(Boxed::new(alloc, query)?, rest))
        }
    }
}
