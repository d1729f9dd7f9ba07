// Texts between quotes.
ghost use Rattle.std.specs.Prelude.{◌≡◌, ◌++◌, ◌≤◌, IfOk, IfSome, IsUtf8, OnOk, drop, length};
ghost use Rattle.std.specs.List.{prefix_len, take_while};
ghost use Rattle.gr_text.specs.Strings.{is_plain, string_from};

use gr_base::{Bytes, NoMemory};
use std::alloc::Global;

/// What stands after an opening `"`: the text meant, and how many bytes it takes with its closing `"`. `None` where none closes it.
// Inlined, this loop would make its caller keep each token in memory.
#[inline(never)]
pub fn string_from(alloc: Global, bytes: &[u8]) -> Result<Option<(Bytes, usize)>, NoMemory>
    ensures exact { IfOk result (λ found. found ≡ string_from bytes.now) }
    ensures within { IfOk result (λ found. IfSome found (λ string. string.1 ≤ length bytes.now)) }
    ensures text { IsUtf8 bytes.now → IfOk result (λ found. IfSome found (λ string. IsUtf8 string.0)) }
    ensures rest { IsUtf8 bytes.now → IfOk result (λ found. IfSome found (λ string. IsUtf8 (drop string.1 bytes.now))) }
{
    let mut text = Vec::new(alloc);
    let mut rest = bytes;
    'pieces: loop {
        let behind = push_piece(&mut text, rest)?;
        let Some((mark, others)) = behind.split_first() else {
            return Ok(None);
        };
        if *mark == b'"' {
            let text = Bytes::from_vec(alloc, text)?;
            return Ok(Some((text, bytes.len() - others.len())));
        }
        let Some((escaped, others)) = others.split_first() else {
            return Ok(None);
        };
        text.push(*escaped)?;
        rest = others;
    }
}

/// Pushes the bytes before the first quote or backslash, and gives those from there on.
fn push_piece<'a>(text: &mut Vec<u8>, bytes: &'a [u8]) -> Result<&'a [u8], NoMemory>
    ensures pushed { OnOk result (text.new.items ≡ text.old.items ++ take_while is_plain bytes.now) }
    ensures rest { IfOk result (λ rest. rest.now ≡ drop (prefix_len is_plain bytes.now) bytes.now) }
{
    let (piece, behind) = bytes.split_at(plain_len(bytes));
    text.extend_from_slice(piece)?;
    Ok(behind)
}

/// How many bytes stand before the first quote or backslash.
fn plain_len(bytes: &[u8]) -> usize
    ensures exact { result ≡ prefix_len is_plain bytes.now }
    ensures within { result ≤ length bytes.now }
{
    bytes.iter().take_while(|byte| is_plain(**byte)).count()
}

/// Neither a quote nor a backslash.
fn is_plain(byte: u8) -> bool
    ensures { result ≡ is_plain byte }
{
    byte != b'"' && byte != b'\\'
}
