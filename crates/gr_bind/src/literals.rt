// Values that are written, as trees and as texts of a query.
ghost use Rattle.std.specs.Prelude.{◌≡◌, ◌==◌, ◌&&◌, true, length, is_some, neg_ℤ, not, pos, IfOk, IsUtf8, Ok};
ghost use Rattle.std.specs.Char.{is_ascii_digit};
ghost use Rattle.std.specs.List.{list_all};
ghost use Rattle.std.specs.Option.{option_and_then, option_map};
ghost use Rattle.gr_bind.specs.Inside.Literals.{digits_of, literal_of};
ghost use Rattle.gr_bind.specs.Inside.Told.{Tells};
ghost use Rattle.gr_bind.specs.Kinds.{is_sought_in};
ghost use Rattle.gr_bind.specs.Typing.{end_named, is_value, literal_for, text_of, truth_named};
ghost use Rattle.gr_bind.specs.declared.operand.Operand.{Operand};
ghost use Rattle.gr_expr.specs.declared.typed.Literal.{Literal};
ghost use Rattle.gr_schema.specs.Fields.{only};
ghost use Rattle.gr_values.specs.Keys.{whole_text};

use crate::ValueKind;
use crate::kinds::is_sought_in;
use crate::operand::Operand;
use crate::refused::refused;
use gr_base::{Bytes, Failure, Fault, FaultKind, NoMemory};
use gr_expr::{Ast, Literal};
use gr_values::Path;
use std::alloc::Global;

// The least whole number that a value may be.
const LEAST_WHOLE: i128 = -9_223_372_036_854_775_808;

// The greatest whole number that a value may be.
const MOST_WHOLE: i128 = 18_446_744_073_709_551_615;

// The digits of a number without a sign.
fn digits_of(tree: &Ast) -> Option<u64>
    ensures { result ≡ digits_of tree.now }
{
    match tree {
        Ast::Number { value, .. } => Some(*value),
        _ => None,
    }
}

// The value that a tree writes, a number with its sign.
fn literal_of(tree: &Ast) -> Result<Option<Literal>, NoMemory>
    ensures { IfOk result (λ literal. literal ≡ literal_of tree.now) }
{
    match tree {
        Ast::Number { value, .. } => Ok(Some(Literal::Number(*value as i128))),
        Ast::Text { bytes, .. } => Ok(Some(Literal::Text(bytes.try_clone()?))),
        Ast::Truth { value, .. } => Ok(Some(Literal::Truth(*value))),
        Ast::Minus { of, .. } => Ok(negative(digits_of(of.get()))),
        _ => Ok(None),
    }
}

// Digits behind a minus.
fn negative(digits: Option<u64>) -> Option<Literal>
    ensures { result ≡ option_map (λ n. Literal.Number (neg_ℤ (pos n))) digits }
{
    Some(Literal::Number(-(digits? as i128)))
}

// A whole number that is written.
pub(crate) fn number(value: u64) -> Operand
    ensures { result ≡ Operand.Literal (Literal.Number (pos value)) }
{
    Operand::Literal(Literal::Number(value as i128))
}

// A text that is written.
pub(crate) fn text(bytes: &Bytes) -> Result<Operand, Failure<Fault>>
    ensures { Tells result (Ok (Operand.Literal (Literal.Text bytes.now))) }
{
    Ok(Operand::Literal(Literal::Text(bytes.try_clone()?)))
}

// The value that a tree writes, where it can be sought in a field.
pub(crate) fn sought_literal(path: &Path, tree: &Ast) -> Result<Option<Literal>, NoMemory>
    ensures { IfOk result (λ literal. literal ≡ only (is_sought_in path.now) (literal_of tree.now)) }
{
    match literal_of(tree)? {
        Some(literal) if is_sought_in(path, &literal) => Ok(Some(literal)),
        _ => Ok(None),
    }
}

// Whether an end is included, as a tree writes it.
pub(crate) fn end_of(tree: &Ast) -> Option<bool>
    ensures { result ≡ option_and_then end_named (option_and_then text_of (literal_of tree.now)) }
{
    match tree {
        Ast::Text { bytes, .. } => end_named(bytes.as_slice()),
        _ => None,
    }
}

fn end_named(text: &[u8]) -> Option<bool>
    ensures { result ≡ end_named text.now }
{
    if text == b"include".as_slice() {
        Some(true)
    } else if text == b"exclude".as_slice() {
        Some(false)
    } else {
        None
    }
}

// The value that a text of a query writes for fields of a kind.
pub(crate) fn literal_for(
    alloc: Global,
    at: u64,
    kind: ValueKind,
    text: &Bytes,
) -> Result<Literal, Failure<Fault>>
    requires { IsUtf8 text.now }
    ensures { Tells result (literal_for at kind text.now) }
{
    match kind {
        ValueKind::Whole | ValueKind::WholeVec => match whole_value(text.as_text()) {
            Some(number) => Ok(Literal::Number(number)),
            None => refused(alloc, FaultKind::BadNumber, at),
        },
        ValueKind::Truth => match truth_named(text.as_slice()) {
            Some(truth) => Ok(Literal::Truth(truth)),
            None => refused(alloc, FaultKind::TypeMismatch, at),
        },
        ValueKind::Text | ValueKind::TextVec => Ok(Literal::Text(text.try_clone()?)),
    }
}

fn truth_named(text: &[u8]) -> Option<bool>
    ensures { result ≡ truth_named text.now }
{
    if text == b"true".as_slice() {
        Some(true)
    } else if text == b"false".as_slice() {
        Some(false)
    } else {
        None
    }
}

// The number that decimal digits write, with a minus before them or not, where it is one that a value may be.
fn whole_value(text: &str) -> Option<i128>
    ensures { result ≡ only is_value (whole_text text.now) }
{
    if is_whole(text.as_bytes()) {
        parsed(text)
    } else {
        None
    }
}

// The number that a text writes. A number of more than 128 bits is none that a value may be.
fn parsed(text: &str) -> Option<i128>
    requires { is_some (whole_text text.now) ≡ true }
    ensures { result ≡ only is_value (whole_text text.now) }
{
    match text.parse::<i128>() {
        Ok(number) if is_value(number) => Some(number),
        Ok(_) => None,
        Err(_) => None,
    }
}

fn is_value(number: i128) -> bool
    ensures { result ≡ is_value number }
{
    LEAST_WHOLE <= number && number <= MOST_WHOLE
}

// Whether this is one decimal digit or more, with a minus before them or not.
fn is_whole(text: &[u8]) -> bool
    ensures { result ≡ is_some (whole_text text.now) }
{
    match text.split_first() {
        Some((b'-', digits)) => is_digits(digits),
        _ => is_digits(text),
    }
}

fn is_digits(text: &[u8]) -> bool
    ensures { result ≡ (not (length text.now == 0) && list_all is_ascii_digit text.now) }
{
    !text.is_empty() && each_is_digit(text)
}

fn each_is_digit(text: &[u8]) -> bool
    ensures { result ≡ list_all is_ascii_digit text.now }
{
    text.iter().all(|byte| byte.is_ascii_digit())
}
