// The token that some bytes begin with.
ghost use Rattle.std.specs.Prelude.{◌≡◌, ◌∷◌, IfOk, IfSome, IsTrue, IsUtf8, slice_index};
ghost use Rattle.std.specs.Char.{is_ascii_digit};
ghost use Rattle.gr_text.specs.Characters.{is_name_start};
ghost use Rattle.gr_text.specs.Strings.{string_from};
ghost use Rattle.gr_text.specs.Lexing.{IsHeld};
ghost use Rattle.gr_script.specs.Token.{IsText, digits_token, long_symbol, longer, path_token, short_symbol, text_token};

#[cfg(test)]
mod tests;

use crate::symbols::{long_symbol, short_symbol};
use crate::token::Token;
use gr_base::{Bytes, NoMemory};
use gr_text::{digits_len, is_name_start, number_from, path_len, string_from};
use std::alloc::Global;

/// A token and how many bytes it has, where there is one.
type MaybeToken = Option<(Token, usize)>;

impl gr_text::Token for Token {
    ghost use Rattle.gr_script.specs.Token.{IsText, token_at};

    ghost starts = { token_at };

    ghost IsText = { IsText };

    fn token_at(alloc: Global, bytes: &[u8]) -> Result<MaybeToken, NoMemory> {
        let Some((first, others)) = bytes.split_first() else {
            return Ok(None);
        };
        if *first == b'"' {
            return text_at(alloc, bytes, others);
        }
        if first.is_ascii_digit() {
            return Ok(digits_at(bytes));
        }
        if is_name_start(*first) {
            return path_at(alloc, bytes);
        }
        Ok(symbol_at(bytes, *first, others))
    }
}

/// The string, whose opening quote is not among these bytes.
fn text_at(alloc: Global, bytes: &[u8], others: &[u8]) -> Result<MaybeToken, NoMemory>
    requires text { IsUtf8 bytes.now }
    requires parts { bytes.now ≡ 34 ∷ others.now }
    ensures exact { IfOk result (λ found. found ≡ text_token (string_from others.now)) }
    ensures held { IfOk result (λ found. IfSome found (IsHeld IsText bytes.now)) }
{
    match string_from(alloc, others)? {
        Some((text, len)) => Ok(Some((Token::Text(text), 1 + len))),
        None => Ok(None),
    }
}

/// Digits, where no letter or `_` follows them.
fn digits_at(bytes: &[u8]) -> MaybeToken
    requires text { IsUtf8 bytes.now }
    requires digit { IsTrue (is_ascii_digit (slice_index bytes.now 0)) }
    ensures exact { result ≡ digits_token bytes.now }
    ensures held { IfSome result (IsHeld IsText bytes.now) }
{
    let len = digits_len(bytes);
    if begins_name(bytes.split_at(len).1) {
        return None;
    }
    Some((Token::Digits(number_from(bytes, len)), len))
}

/// Whether a letter or `_` stands first.
fn begins_name(bytes: &[u8]) -> bool
    ensures { result ≡ is_name_start (slice_index bytes.now 0) }
{
    match bytes.first() {
        Some(first) => is_name_start(*first),
        None => false,
    }
}

/// Names joined by dots.
fn path_at(alloc: Global, bytes: &[u8]) -> Result<MaybeToken, NoMemory>
    requires text { IsUtf8 bytes.now }
    requires name { IsTrue (is_name_start (slice_index bytes.now 0)) }
    ensures exact { IfOk result (λ found. found ≡ path_token bytes.now) }
    ensures held { IfOk result (λ found. IfSome found (IsHeld IsText bytes.now)) }
{
    let len = path_len(bytes);
    let path = Bytes::from_slice(alloc, bytes.split_at(len).0)?;
    Ok(Some((Token::Path(path), len)))
}

/// The mark that the bytes begin with.
fn symbol_at(bytes: &[u8], first: u8, others: &[u8]) -> MaybeToken
    requires text { IsUtf8 bytes.now }
    requires parts { bytes.now ≡ first ∷ others.now }
    ensures exact { result ≡ longer (long_symbol first (slice_index others.now 0)) (short_symbol first) }
    ensures held { IfSome result (IsHeld IsText bytes.now) }
{
    let second = first_or_zero(others);
    if let Some(symbol) = long_symbol(first, second) {
        return Some((Token::Symbol(symbol), 2));
    }
    let symbol = short_symbol(first)?;
    Some((Token::Symbol(symbol), 1))
}

/// The first byte, and 0 where there is none.
fn first_or_zero(bytes: &[u8]) -> u8
    ensures { result ≡ slice_index bytes.now 0 }
{
    match bytes.first() {
        Some(first) => *first,
        None => 0,
    }
}
