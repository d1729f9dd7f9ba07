// How match columns are read from the left in one pass: a step for each token.
ghost use Rattle.std.specs.Prelude.{◌≡◌, List, Some};
ghost use Rattle.gr_ast.specs.declared.columns.MatchColumn.{MatchColumn as Column};
ghost use Rattle.gr_script.specs.Columns.{column_word, weight_of, is_star, is_or};
ghost use Rattle.gr_script.specs.Inside.ColumnSteps.{Steps, column_step, path_read, weight_read, joined};
ghost use Rattle.gr_text.specs.Lexing.{placed};

use crate::column::Place;
use crate::token::{Symbol, Token};
use crate::words::reserved;
use gr_ast::{LEAST_WEIGHT, MatchColumn};
use gr_text::{Lexeme, Stop};

/// The next token.
pub(crate) fn column_step(
    place: Place,
    columns: &mut Vec<MatchColumn>,
    lexeme: Lexeme<Token>,
) -> Result<Place, Stop>
    ensures { Steps result columns.new.items (column_step place columns.old.items (placed lexeme)) }
{
    match place {
        Place::Path => path_read(lexeme),
        Place::Behind(first) => {
            if is_star(&lexeme.token) {
                Ok(Place::Weight(first))
            } else {
                join(&lexeme.token, first, columns)
            }
        }
        Place::Weight(first) => weight_read(&lexeme.token, first),
        Place::Weighted(first) => join(&lexeme.token, first, columns),
    }
}

/// A column's path.
fn path_read(lexeme: Lexeme<Token>) -> Result<Place, Stop>
    ensures { (columns : List Column) → Steps result columns (path_read (column_word lexeme.token) lexeme.at columns) }
{
    let Lexeme { at, token } = lexeme;
    match token {
        Token::Path(path) => {
            if reserved(path.as_slice()).is_some() {
                Err(Stop::Wrong)
            } else {
                Ok(Place::Behind(MatchColumn {
                    path,
                    at,
                    weight: LEAST_WEIGHT,
                }))
            }
        }
        _ => Err(Stop::Wrong),
    }
}

/// A column's weight.
fn weight_read(token: &Token, first: MatchColumn) -> Result<Place, Stop>
    ensures { (columns : List Column) → Steps result columns (weight_read (weight_of token.now) first columns) }
{
    match token {
        Token::Digits(value) => Ok(Place::Weighted(MatchColumn {
            path: first.path,
            at: first.at,
            weight: weight(*value),
        })),
        _ => Err(Stop::Wrong),
    }
}

/// A weight, or the greatest number of 32 bits where it is above that.
fn weight(value: Option<u64>) -> u32
    ensures { weight_of (Token.Digits value) ≡ Some result }
{
    match value {
        Some(value) if value < u64::from(u32::MAX) => value as u32,
        _ => u32::MAX,
    }
}

/// `||` behind a column.
fn join(token: &Token, first: MatchColumn, columns: &mut Vec<MatchColumn>) -> Result<Place, Stop>
    ensures { Steps result columns.new.items (joined (is_or token.now) first columns.old.items) }
{
    if is_or(token) {
        columns.push(first)?;
        Ok(Place::Path)
    } else {
        Err(Stop::Wrong)
    }
}

fn is_star(token: &Token) -> bool
    ensures { result ≡ is_star token.now }
{
    matches!(token, Token::Symbol(Symbol::Star))
}

fn is_or(token: &Token) -> bool
    ensures { result ≡ is_or token.now }
{
    matches!(token, Token::Symbol(Symbol::Or))
}
