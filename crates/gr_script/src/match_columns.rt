// From the text of match columns to the columns, or to its fault.
ghost use Rattle.std.specs.Prelude.{◌≡◌, IfErr, IfOk};
ghost use Rattle.gr_text.specs.Lexing.{placed};
ghost use Rattle.gr_text.specs.Inside.Reading.{Answers};
ghost use Rattle.gr_script.specs.Inside.ColumnSteps.{columns_step_of};
ghost use Rattle.gr_ast.specs.Columns.{AreMadeColumns};
ghost use Rattle.gr_script.specs.Columns.{AreRefusal, IsColumns, is_no_weight};
ghost use Rattle.gr_script.specs.Token.{tokens_of};

use crate::column::Place;
use crate::columns::column_step;
use crate::token::Token;
use gr_ast::{LEAST_WEIGHT, MOST_WEIGHT, MatchColumn, MatchColumns};
use gr_base::{FaultKind, ListOf};
use gr_text::{Lexeme, Reader, Stop, TextFault, read};
use std::alloc::Global;
use std::marker::Model;
use std::mem::replace;

/// The match columns of a text. It is `Err` of `Refused` exactly where the text is none, with the first place that is wrong.
pub fn parse_columns(alloc: Global, text: &str) -> Result<MatchColumns, TextFault>
    ensures columns { IfOk result (IsColumns (tokens_of text.now)) }
    ensures made { IfOk result AreMadeColumns }
    ensures refused { IfErr result (AreRefusal (tokens_of text.now)) }
{
    read(alloc, ColumnsReader::new(alloc), FaultKind::BadScript, text)
}

/// Parses match columns token by token.
#[derive(Drop)]
pub(crate) struct ColumnsReader {
    place: Place,
    columns: Vec<MatchColumn>,
}

impl Model for ColumnsReader {
    ghost use Rattle.gr_script.specs.Inside.ColumnSteps.{State, state};

    ghost Value = { State };

    ghost view = { λ reader. state reader.place reader.columns.items };
}

impl ColumnsReader {
    ghost use Rattle.gr_script.specs.Inside.ColumnSteps.{columns_begin};
    ghost use Rattle.gr_base.specs.declared.limits.TheConstants.{MOST_LEVELS};

    /// Nothing is read.
    fn new(alloc: Global) -> ColumnsReader
        ensures { result ≡ columns_begin MOST_LEVELS }
    {
        ColumnsReader {
            place: Place::Path,
            columns: Vec::new(alloc),
        }
    }
}

impl Reader for ColumnsReader {
    ghost use Rattle.gr_script.specs.Columns.{is_no_weight};
    ghost use Rattle.gr_script.specs.Inside.ColumnSteps.{columns_end_of, columns_step_of};

    type Token = Token;

    type Tree = MatchColumns;

    ghost steps = { columns_step_of };

    ghost ends = { columns_end_of };

    ghost has_no_value = { is_no_weight };

    fn step(&mut self, lexeme: Lexeme<Token>) -> Result<(), Stop>
        ensures { Answers result self.new (columns_step_of self.old (placed lexeme)) }
    {
        let place = replace(&mut self.place, Place::Path);
        self.place = column_step(place, &mut self.columns, lexeme)?;
        Ok(())
    }

    fn finish(self) -> Result<MatchColumns, Stop> {
        let ColumnsReader { place, columns } = self;
        let mut columns = columns;
        match place {
            Place::Behind(last) => columns.push(last)?,
            Place::Weighted(last) => columns.push(last)?,
            Place::Path => return Err(Stop::Wrong),
            Place::Weight(_) => return Err(Stop::Wrong),
        }
        Ok(ListOf::from_vec(columns))
    }

    fn lacks_value(token: &Token) -> bool {
        is_no_weight(token)
    }
}

/// Whether a token is a number outside 1 to 1,000.
fn is_no_weight(token: &Token) -> bool
    ensures { result ≡ is_no_weight token.now }
{
    match token {
        Token::Digits(Some(value)) => !(LEAST_WEIGHT as u64 <= *value
            && *value <= MOST_WEIGHT as u64),
        Token::Digits(None) => true,
        _ => false,
    }
}
