// Texts whose words stand one space apart: their pieces between spaces are their words.
ghost use Rattle.std.specs.Prelude.{◌≡◌, ◌<◌, ◌≤◌, IfSome, length, slice_index, true};
ghost use Rattle.std.specs.List.{All, slice_split};
ghost use Rattle.gr_tokens.specs.Inside.Plain.{IsShort};
ghost use Rattle.gr_tokens.specs.Tokens.{is_space, words};

use super::delimit::LONGEST_WORD;
use memchr::{memmem, memrchr};

/// Whether each piece of a text between spaces is a word. It takes one pass of memmem, and a look at some bytes of
/// each 4,096.
pub(crate) fn is_plain(text: &[u8]) -> bool
    ensures words { result ≡ true → words text.now ≡ slice_split is_space text.now }
    ensures some { result ≡ true → 0 < length text.now }
{
    if text.is_empty() || text[0] == b' ' || text[text.len() - 1] == b' ' {
        return false;
    }
    match memmem::find(text, b"  ") {
        Some(_) => false,
        None => has_short_pieces(text),
    }
}

// Whether no piece between spaces is too long for a word: each of so many bytes and one has a space.
fn has_short_pieces(text: &[u8]) -> bool
    ensures { result ≡ true → All IsShort (slice_split is_space text.now) }
{
    let mut rest = text;
    while rest.len() > LONGEST_WORD {
        match near_space(rest) {
            Some(at) => rest = &rest[at + 1..],
            None => return false,
        }
    }
    true
}

// The last space among the first bytes of a text, as many as a word may have and one.
fn near_space(text: &[u8]) -> Option<usize>
    requires { 4096 < length text.now }
    ensures { IfSome result (λ at. (at < length text.now) × (at ≤ 4096) × (slice_index text.now at ≡ 32)) }
{
    memrchr(b' ', &text[..LONGEST_WORD + 1])
}

/// A text without one space at its beginning and one at its end.
pub(crate) fn without_outer_spaces(text: &[u8]) -> &[u8]
    ensures { words result.now ≡ words text.now }
{
    without_last_space(without_first_space(text))
}

fn without_first_space(text: &[u8]) -> &[u8]
    ensures { words result.now ≡ words text.now }
{
    if text.is_empty() || text[0] != b' ' {
        return text;
    }
    &text[1..]
}

fn without_last_space(text: &[u8]) -> &[u8]
    ensures { words result.now ≡ words text.now }
{
    if text.is_empty() || text[text.len() - 1] != b' ' {
        return text;
    }
    &text[..text.len() - 1]
}
