// The texts of a command that are read by a grammar.
ghost use Rattle.std.specs.Prelude.{◌≡◌, IfOk, IfErr, option_map};
ghost use Rattle.gr_ast.specs.Columns.{AreMadeColumns};
ghost use Rattle.gr_ast.specs.Made.{IsMade};
ghost use Rattle.gr_select.specs.Inside.Read.{as_told};
ghost use Rattle.gr_select.specs.Texts.{AreMade, AreReadings, IsReadingOf, OfTree, ReadsColumns, ReadsQuery, ReadsScript};

use gr_ast::{Ast, MatchColumns};
use gr_base::{Failure, NoMemory};
use gr_cmdline::{Args, Param};
use gr_text::{TextFault, TextRefusal};
use std::alloc::Global;

/// What the texts of a command are read as: each a tree, or refused; none where it is not given.
#[derive(Drop)]
pub struct Texts {
    /// The columns that a query's words are sought in.
    pub columns: Option<Result<MatchColumns, TextRefusal>>,
    /// The query.
    pub query: Option<Result<Ast, TextRefusal>>,
    /// The filter.
    pub filter: Option<Result<Ast, TextRefusal>>,
}

/// Reads the texts that are given to a command.
pub fn texts_of(alloc: Global, args: &Args) -> Result<Texts, NoMemory>
    ensures read { IfOk result (AreReadings args.now.given) }
    ensures made { IfOk result AreMade }
{
    Ok(Texts {
        columns: columns_read(alloc, args.get(Param::MatchColumns))?,
        query: query_read(alloc, args.get(Param::Query))?,
        filter: filter_read(alloc, args.get(Param::Filter))?,
    })
}

fn columns_read(
    alloc: Global,
    text: Option<&str>,
) -> Result<Option<Result<MatchColumns, TextRefusal>>, NoMemory>
    ensures read { IfOk result (IsReadingOf ReadsColumns (option_map (λ text. text.now) text.entry)) }
    ensures made { IfOk result (OfTree AreMadeColumns) }
{
    match text {
        Some(text) => Ok(Some(told(gr_script::parse_columns(alloc, text))?)),
        None => Ok(None),
    }
}

fn query_read(
    alloc: Global,
    text: Option<&str>,
) -> Result<Option<Result<Ast, TextRefusal>>, NoMemory>
    ensures read { IfOk result (IsReadingOf ReadsQuery (option_map (λ text. text.now) text.entry)) }
    ensures made { IfOk result (OfTree IsMade) }
{
    match text {
        Some(text) => Ok(Some(told(gr_query::parse(alloc, text))?)),
        None => Ok(None),
    }
}

fn filter_read(
    alloc: Global,
    text: Option<&str>,
) -> Result<Option<Result<Ast, TextRefusal>>, NoMemory>
    ensures read { IfOk result (IsReadingOf ReadsScript (option_map (λ text. text.now) text.entry)) }
    ensures made { IfOk result (OfTree IsMade) }
{
    match text {
        Some(text) => Ok(Some(told(gr_script::parse(alloc, text))?)),
        None => Ok(None),
    }
}

// A tree, or what a text is refused for, with want of memory set apart.
fn told<T>(read: Result<T, TextFault>) -> Result<Result<T, TextRefusal>, NoMemory>
    ensures { IfOk result (λ told. read ≡ as_told told) }
{
    match read {
        Ok(tree) => Ok(Ok(tree)),
        Err(Failure::Refused(refusal)) => Ok(Err(refusal)),
        Err(Failure::NoMemory) => Err(NoMemory),
    }
}
