// The token that some bytes begin with.
ghost use Rattle.std.specs.Prelude.{◌≡◌, ◌<◌, ◌∷◌, IfOk, IfSome, IsUtf8, length};
ghost use Rattle.gr_text.specs.Lexing.{IsHeld};
ghost use Rattle.gr_query.specs.Inside.Lexing.{IsText};
ghost use Rattle.gr_query.specs.Inside.Reading.{EndsInStar, HasEscape, shown_run, unescaped};
ghost use Rattle.gr_query.specs.Token.{phrase_at, plain_at, plain_of, prefix_of, token_at};

use crate::fields::{field_parts, field_with, phrase};
use crate::runs::{ScannedRun, run_from, stretch};
use crate::token::Token;
use gr_ast::Seek;
use gr_base::{Bytes, NoMemory};
use std::alloc::Global;

/// A token and how many bytes it has, where there is one.
type MaybeToken = Option<(Token, usize)>;

impl gr_text::Token for Token {
    ghost starts = { token_at };

    ghost IsText = { IsText };

    fn token_at(alloc: Global, bytes: &[u8]) -> Result<MaybeToken, NoMemory> {
        let Some((first, others)) = bytes.split_first() else {
            return Ok(None);
        };
        match *first {
            b'(' => Ok(Some((Token::Open, 1))),
            b')' => Ok(Some((Token::Close, 1))),
            b'+' => Ok(Some((Token::Plus, 1))),
            b'-' => Ok(Some((Token::Minus, 1))),
            b'"' => phrase_at(alloc, bytes, others),
            _ => match field_parts(bytes) {
                Some((path, rest)) => field_with(alloc, path, rest),
                None => plain_at(alloc, bytes),
            },
        }
    }
}

/// The phrase whose opening quote stands before these bytes.
fn phrase_at(alloc: Global, bytes: &[u8], others: &[u8]) -> Result<MaybeToken, NoMemory>
    requires text { IsUtf8 bytes.now }
    requires parts { bytes.now ≡ 34 ∷ others.now }
    ensures exact { IfOk result (λ found. found ≡ phrase_at others.now) }
    ensures held { IfOk result (λ found. IfSome found (IsHeld IsText bytes.now)) }
{
    match phrase(alloc, bytes, others)? {
        Some((text, len)) => Ok(Some((Token::Word(Seek::Match, text), len))),
        None => Ok(None),
    }
}

/// The word OR, a prefix or a plain.
fn plain_at(alloc: Global, bytes: &[u8]) -> Result<MaybeToken, NoMemory>
    requires { IsUtf8 bytes.now }
    ensures exact { IfOk result (λ found. found ≡ plain_at bytes.now) }
    ensures held { IfOk result (λ found. IfSome found (IsHeld IsText bytes.now)) }
{
    match stretch(bytes) {
        Some(run) => plain(alloc, run),
        None => escaped_at(alloc, bytes),
    }
}

/// The same of a run without an escape.
fn plain(alloc: Global, run: &[u8]) -> Result<MaybeToken, NoMemory>
    requires { IsUtf8 run.now }
    ensures exact { IfOk result (λ found. found ≡ plain_of run.now (unescaped run.now)) }
    ensures some { IfOk result (λ found. IfSome found (λ found. 0 < found.1)) }
    ensures len { IfOk result (λ found. IfSome found (λ found. found.1 ≡ length run.now)) }
    ensures text { IfOk result (λ found. IfSome found (λ found. IsText found.0)) }
{
    if run == b"OR".as_slice() {
        return Ok(Some((Token::Or, run.len())));
    }
    let Some((last, front)) = run.split_last() else {
        return Ok(None);
    };
    if *last != b'*' {
        let text = Bytes::from_slice(alloc, run)?;
        return Ok(Some((Token::Word(Seek::Match, text), run.len())));
    }
    if front.is_empty() {
        return Ok(None);
    }
    let text = Bytes::from_slice(alloc, front)?;
    Ok(Some((Token::Word(Seek::Prefix, text), run.len())))
}

/// The same of a run with an escape, which is neither OR nor a `*` alone.
fn escaped_at(alloc: Global, bytes: &[u8]) -> Result<MaybeToken, NoMemory>
    requires text { IsUtf8 bytes.now }
    requires escaped { HasEscape bytes.now }
    ensures exact { IfOk result (λ found. found ≡ plain_at bytes.now) }
    ensures held { IfOk result (λ found. IfSome found (IsHeld IsText bytes.now)) }
{
    let run = run_from(alloc, bytes)?;
    if run.is_starred {
        return prefix_of(alloc, run);
    }
    let text = Bytes::from_vec(alloc, run.text)?;
    Ok(Some((Token::Word(Seek::Match, text), run.len)))
}

/// All of a run before the `*` that ends it.
fn prefix_of(alloc: Global, run: ScannedRun) -> Result<MaybeToken, NoMemory>
    requires { 1 < run.len }
    ensures exact { IfOk result (λ found. found ≡ prefix_of (shown_run run)) }
    ensures len { IfOk result (λ found. IfSome found (λ found. found.1 ≡ run.len)) }
    ensures text { EndsInStar run.text.items → IsUtf8 run.text.items → IfOk result (λ found. IfSome found (λ found. IsText found.0)) }
{
    let ScannedRun { mut text, len, .. } = run;
    let _star = text.pop();
    let text = Bytes::from_vec(alloc, text)?;
    Ok(Some((Token::Word(Seek::Prefix, text), len)))
}
