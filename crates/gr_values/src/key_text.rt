// Keys that are written as texts.
ghost use Rattle.std.specs.Prelude.{◌≡◌, ◌==◌, ◌&&◌, true, length, is_some, not, IfOk};
ghost use Rattle.std.specs.Option.{ok_or};
ghost use Rattle.std.specs.Char.{is_ascii_digit};
ghost use Rattle.std.specs.List.{list_all};
ghost use Rattle.gr_base.specs.Failure.{Answers, result_then};
ghost use Rattle.gr_base.specs.declared.fault.FaultKind.TheVariants.{BadValue};
ghost use Rattle.gr_values.specs.Fits.{IsIn, IsKeyOf, IsNarrow};
ghost use Rattle.gr_values.specs.Keys.{short_key, text_key, whole_text};
ghost use Rattle.gr_values.specs.Types.{is_key_type};
ghost use Rattle.gr_values.specs.Values.{in_range};

use crate::read::not_empty;
use crate::{DataType, Key, Range, ReadFault};
use gr_base::{Bytes, FaultKind, LONGEST_KEY};
use std::alloc::Global;

/// The key that a text writes: a whole number in decimal, or the text itself.
pub fn key_of_text(alloc: Global, text: &str, of: DataType) -> Result<Key, ReadFault>
    requires { is_key_type of ≡ true }
    ensures exact { Answers result (text_key of text.now) }
    ensures fits { IfOk result (IsKeyOf of) }
{
    match of.range() {
        Some(range) => Ok(Key::Number(number_of_text(text, range)?)),
        None => short_key(alloc, text, of),
    }
}

fn short_key(alloc: Global, text: &str, of: DataType) -> Result<Key, ReadFault>
    requires { of ≡ DataType.ShortText }
    ensures exact { Answers result (short_key text.now) }
    ensures fits { IfOk result (IsKeyOf of) }
{
    if text.len() > LONGEST_KEY {
        return Err(ReadFault::Refused(FaultKind::TooLong));
    }
    not_empty(Key::Text(Bytes::from_string(alloc, String::from_str(alloc, text)?)?))
}

/// The number that decimal digits write, with a minus before them or not.
fn number_of_text(text: &str, range: Range) -> Result<i128, FaultKind>
    requires { IsNarrow range }
    ensures exact { result ≡ result_then (in_range range) (ok_or (whole_text text.now) BadValue) }
    ensures fits { IfOk result (IsIn range) }
{
    if is_whole(text.as_bytes()) {
        whole_in_range(text, range)
    } else {
        Err(FaultKind::BadValue)
    }
}

/// The number of a text that writes one, where it is in the range. A number of more than 128 bits is in none.
fn whole_in_range(text: &str, range: Range) -> Result<i128, FaultKind>
    requires whole { is_some (whole_text text.now) ≡ true }
    requires narrow { IsNarrow range }
    ensures exact { result ≡ result_then (in_range range) (ok_or (whole_text text.now) BadValue) }
    ensures fits { IfOk result (IsIn range) }
{
    match text.parse::<i128>() {
        Ok(number) => range.checked(number),
        Err(_) => Err(FaultKind::OutOfRange),
    }
}

/// Whether this is one decimal digit or more, with a minus before them or not.
fn is_whole(text: &[u8]) -> bool
    ensures { result ≡ is_some (whole_text text.now) }
{
    match text.split_first() {
        Some((b'-', digits)) => is_digits(digits),
        _ => is_digits(text),
    }
}

fn is_digits(text: &[u8]) -> bool
    ensures { result ≡ (not (length text.now == 0) && list_all is_ascii_digit text.now) }
{
    !text.is_empty() && each_is_digit(text)
}

fn each_is_digit(text: &[u8]) -> bool
    ensures { result ≡ list_all is_ascii_digit text.now }
{
    text.iter().all(|byte| byte.is_ascii_digit())
}
