// What an operand that begins with a token is, and what a token is behind one.
ghost use Rattle.std.specs.Prelude.{◌≡◌};
ghost use Rattle.gr_text.specs.Lexing.{placed};
ghost use Rattle.gr_script.specs.Words.{after_by, after_mark, is_large, opens, reserved, start_of, start_with, word_at};

use crate::grammar::{After, Call, ConditionLine, NumberLine, Reserved, Sign, Start};
use crate::token::{Symbol, Token};
use gr_ast::{Arith, Ast, FieldOp, Join, Seek};
use gr_base::{Bytes, Cmp};
use gr_text::Lexeme;

/// What an operand that begins with this token is.
pub(crate) fn start_of(lexeme: Lexeme<Token>) -> Start
    ensures { result ≡ start_of (placed lexeme) }
{
    let Lexeme { at, token } = lexeme;
    match token {
        Token::Symbol(symbol) => start_with(symbol),
        Token::Digits(value) => Start::Leaf(Ast::Number {
            at,
            value: value.unwrap_or(u64::MAX),
        }),
        Token::Text(bytes) => Start::Leaf(Ast::Text { at, bytes }),
        Token::Path(text) => word_at(at, text),
    }
}

/// What an operand that begins with this mark is.
fn start_with(symbol: Symbol) -> Start
    ensures { result ≡ start_with symbol }
{
    match symbol {
        Symbol::Open => Start::Grouped,
        Symbol::Not => Start::Signed(Sign::Not),
        Symbol::Minus => Start::Signed(Sign::Minus),
        _ => Start::Nothing,
    }
}

/// A word without a quote: a truth, a call's name, or a path.
fn word_at(at: u64, text: Bytes) -> Start
    ensures { result ≡ word_at at text }
{
    match reserved(text.as_slice()) {
        Some(Reserved::Truth(value)) => Start::Leaf(Ast::Truth { at, value }),
        Some(Reserved::Called(call)) => Start::Called(call),
        None => Start::Leaf(Ast::Path { at, text }),
    }
}

/// What a word means that is no path by itself.
pub(crate) fn reserved(word: &[u8]) -> Option<Reserved>
    ensures { result ≡ reserved word.now }
{
    if word == b"true".as_slice() {
        Some(Reserved::Truth(true))
    } else if word == b"false".as_slice() {
        Some(Reserved::Truth(false))
    } else if word == b"between".as_slice() {
        Some(Reserved::Called(Call::Between))
    } else if word == b"in_values".as_slice() {
        Some(Reserved::Called(Call::InValues))
    } else {
        None
    }
}

/// What a token is behind an operand.
pub(crate) fn after_by(token: &Token) -> After
    ensures { result ≡ after_by token.now }
{
    match token {
        Token::Symbol(symbol) => after_mark(*symbol),
        _ => After::Nothing,
    }
}

/// What a mark is behind an operand.
fn after_mark(symbol: Symbol) -> After
    ensures { result ≡ after_mark symbol }
{
    match symbol {
        Symbol::Close => After::Closes,
        Symbol::Comma => After::Separates,
        Symbol::Or => After::Joins(ConditionLine::Any, Join::Or),
        Symbol::And => After::Joins(ConditionLine::All, Join::And),
        Symbol::Without => After::Joins(ConditionLine::All, Join::Without),
        Symbol::Eq => After::Tests(FieldOp::Compare(Cmp::Eq)),
        Symbol::Ne => After::Tests(FieldOp::Compare(Cmp::Ne)),
        Symbol::Lt => After::Tests(FieldOp::Compare(Cmp::Lt)),
        Symbol::Le => After::Tests(FieldOp::Compare(Cmp::Le)),
        Symbol::Gt => After::Tests(FieldOp::Compare(Cmp::Gt)),
        Symbol::Ge => After::Tests(FieldOp::Compare(Cmp::Ge)),
        Symbol::Match => After::Tests(FieldOp::Find(Seek::Match)),
        Symbol::Prefix => After::Tests(FieldOp::Find(Seek::Prefix)),
        Symbol::Suffix => After::Tests(FieldOp::Find(Seek::Suffix)),
        Symbol::Plus => After::Combines(NumberLine::Sum, Arith::Add),
        Symbol::Minus => After::Combines(NumberLine::Sum, Arith::Sub),
        Symbol::Star => After::Combines(NumberLine::Product, Arith::Mul),
        Symbol::Slash => After::Combines(NumberLine::Product, Arith::Div),
        Symbol::Percent => After::Combines(NumberLine::Product, Arith::Rem),
        Symbol::Open => After::Nothing,
        Symbol::Not => After::Nothing,
    }
}

/// Whether a token is an opening bracket.
pub(crate) fn opens(token: &Token) -> bool
    ensures { result ≡ opens token.now }
{
    matches!(token, Token::Symbol(Symbol::Open))
}

/// Whether a token is a number above the greatest of 64 bits.
pub(crate) fn is_large(token: &Token) -> bool
    ensures { result ≡ is_large token.now }
{
    matches!(token, Token::Digits(None))
}
