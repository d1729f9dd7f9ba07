// Fields: a path, a `:`, an op, and the text that the path is tested by.
ghost use Rattle.std.specs.Prelude.{◌≡◌, ◌+◌, ◌-◌, ◌^◌, ◌<◌, ◌≤◌, ◌∷◌, IfNone, IfOk, IfSome, IsUtf8, drop, length, slice_index, suc, take, true, false};
ghost use Rattle.gr_text.specs.Paths.{path_len};
ghost use Rattle.gr_text.specs.Strings.{string_from};
ghost use Rattle.gr_query.specs.Inside.Lexing.{IsHeldBehind, IsTextHeld};
ghost use Rattle.gr_query.specs.Inside.Reading.{HasEscape};
ghost use Rattle.gr_query.specs.Runs.{run_from};
ghost use Rattle.gr_query.specs.Token.{begins_field, field_with, longer, op_at, phrase, some_run, text_at};

use crate::runs::{run_from, stretch};
use crate::token::Token;
use gr_ast::{FieldOp, Seek};
use gr_base::{Bytes, Cmp, NoMemory};
use gr_text::{path_len, string_from};
use std::alloc::Global;

/// A text that is meant, and how many bytes it takes, where there is one.
pub(crate) type MaybeText = Option<(Bytes, usize)>;

/// The path and what stands behind its `:`, where a field begins.
pub(crate) fn field_parts(bytes: &[u8]) -> Option<(&[u8], &[u8])>
    ensures begins { IfSome result (λ parts. begins_field bytes.now ≡ true) }
    ensures path { IfSome result (λ parts. parts.0.now ≡ take (path_len bytes.now) bytes.now) }
    ensures rest { IfSome result (λ parts. parts.1.now ≡ drop (suc (path_len bytes.now)) bytes.now) }
    ensures counted { IfSome result (λ parts. length parts.0.now ≡ path_len bytes.now) }
    ensures within { IfSome result (λ parts. suc (length parts.0.now) + length parts.1.now ≡ length bytes.now) }
    ensures text { IfSome result (λ parts. IsUtf8 parts.0.now) }
    ensures behind { IsUtf8 bytes.now → IfSome result (λ parts. IsUtf8 parts.1.now) }
    ensures none { IfNone result (begins_field bytes.now ≡ false) }
{
    let len = path_len(bytes);
    if len == 0 {
        return None;
    }
    let (path, behind) = bytes.split_at(len);
    let (mark, rest) = behind.split_first()?;
    if *mark == b':' {
        Some((path, rest))
    } else {
        None
    }
}

/// The field of this path, if a phrase or a run stands behind its op.
pub(crate) fn field_with(
    alloc: Global,
    path: &[u8],
    rest: &[u8],
) -> Result<Option<(Token, usize)>, NoMemory>
    requires path { IsUtf8 path.now }
    requires rest { IsUtf8 rest.now }
    requires fits { length path.now + length rest.now + 1 < 2 ^ 64 }
    ensures exact { IfOk result (λ found. found ≡ field_with path.now (op_at rest.now) rest.now) }
    ensures held { IfOk result (λ found. IfSome found (IsHeldBehind (suc (length path.now)) rest.now)) }
{
    let (test, len) = op_at(rest);
    match text_at(alloc, rest.split_at(len).1)? {
        Some((text, more)) => {
            let whole = 1 + path.len() + len + more;
            let path = Bytes::from_slice(alloc, path)?;
            Ok(Some((Token::Field(path, test, text), whole)))
        }
        None => Ok(None),
    }
}

/// The op that the bytes begin with, as long as it goes, and how many bytes it has.
fn op_at(bytes: &[u8]) -> (FieldOp, usize)
    ensures exact { result ≡ op_at bytes.now }
    ensures within { result.1 ≤ length bytes.now }
    ensures rest { IsUtf8 bytes.now → IsUtf8 (drop result.1 bytes.now) }
{
    let Some((first, others)) = bytes.split_first() else {
        return (FieldOp::Compare(Cmp::Eq), 0);
    };
    match *first {
        b'!' => (FieldOp::Compare(Cmp::Ne), 1),
        b'<' => longer(others, FieldOp::Compare(Cmp::Le), FieldOp::Compare(Cmp::Lt)),
        b'>' => longer(others, FieldOp::Compare(Cmp::Ge), FieldOp::Compare(Cmp::Gt)),
        b'@' => (FieldOp::Find(Seek::Match), 1),
        b'^' => (FieldOp::Find(Seek::Prefix), 1),
        b'$' => (FieldOp::Find(Seek::Suffix), 1),
        _ => (FieldOp::Compare(Cmp::Eq), 0),
    }
}

/// An op with a second byte, if it is `=`, and without it.
fn longer(others: &[u8], long: FieldOp, short: FieldOp) -> (FieldOp, usize)
    ensures exact { result ≡ longer (slice_index others.now 0) long short }
    ensures within { result.1 ≤ 1 + length others.now }
    ensures some { 0 < result.1 }
    ensures rest { IsUtf8 others.now → IsUtf8 (drop (result.1 - 1) others.now) }
{
    let Some((second, _)) = others.split_first() else {
        return (short, 1);
    };
    if *second == b'=' {
        (long, 2)
    } else {
        (short, 1)
    }
}

/// The phrase or the run that the bytes begin with.
fn text_at(alloc: Global, bytes: &[u8]) -> Result<MaybeText, NoMemory>
    requires { IsUtf8 bytes.now }
    ensures exact { IfOk result (λ found. found ≡ text_at bytes.now) }
    ensures held { IfOk result (λ found. IfSome found (IsTextHeld bytes.now)) }
{
    let Some((first, others)) = bytes.split_first() else {
        return Ok(None);
    };
    if *first == b'"' {
        phrase(alloc, bytes, others)
    } else {
        some_run(alloc, bytes)
    }
}

/// The phrase whose opening quote stands before the second of these.
pub(crate) fn phrase(alloc: Global, bytes: &[u8], others: &[u8]) -> Result<MaybeText, NoMemory>
    requires text { IsUtf8 bytes.now }
    requires parts { bytes.now ≡ 34 ∷ others.now }
    ensures exact { IfOk result (λ found. found ≡ phrase (string_from others.now)) }
    ensures held { IfOk result (λ found. IfSome found (IsTextHeld bytes.now)) }
{
    match string_from(alloc, others)? {
        Some((text, len)) => Ok(Some((text, 1 + len))),
        None => Ok(None),
    }
}

/// The run that the bytes begin with.
fn some_run(alloc: Global, bytes: &[u8]) -> Result<MaybeText, NoMemory>
    requires { IsUtf8 bytes.now }
    ensures exact { IfOk result (λ found. found ≡ some_run (run_from bytes.now)) }
    ensures held { IfOk result (λ found. IfSome found (IsTextHeld bytes.now)) }
{
    match stretch(bytes) {
        Some([]) => Ok(None),
        Some(run) => Ok(Some((Bytes::from_slice(alloc, run)?, run.len()))),
        None => escaped_text(alloc, bytes),
    }
}

/// What a run with an escape means.
fn escaped_text(alloc: Global, bytes: &[u8]) -> Result<MaybeText, NoMemory>
    requires text { IsUtf8 bytes.now }
    requires escaped { HasEscape bytes.now }
    ensures exact { IfOk result (λ found. found ≡ some_run (run_from bytes.now)) }
    ensures held { IfOk result (λ found. IfSome found (IsTextHeld bytes.now)) }
{
    let run = run_from(alloc, bytes)?;
    Ok(Some((Bytes::from_vec(alloc, run.text)?, run.len)))
}
