// The flags of a wish for a column.
ghost use Rattle.std.specs.Prelude.{◌≡◌, true, false, MatchOption, map, length};
ghost use Rattle.std.specs.List.{list_all, slice_split};
ghost use Rattle.gr_schema.specs.Flags.{are_flags, count_of, flags_of, has, is_bar};
ghost use Rattle.gr_schema.specs.Inside.Flags.{AreMeant, is_flag_beside};

use crate::cut::cut;
use crate::words::is_one_of;

/// What stands between two flags.
const BAR: u8 = b'|';

const SCALAR: &str = "COLUMN_SCALAR";

const VECTOR: &str = "COLUMN_VECTOR";

const INDEX: &str = "COLUMN_INDEX";

const SECTION: &str = "WITH_SECTION";

const POSITION: &str = "WITH_POSITION";

/// What flags ask for.
#[derive(Clone, Copy, Debug, PartialEq, Eq)]
pub(crate) enum Flags {
    /// A column of single values.
    Scalar,
    /// A column of lists.
    Vector,
    /// An index, with positions in the dump or not, and over several fields or not.
    Index { position: bool, section: bool },
}

// What the flags ask for, where they are flags of a column.
pub(crate) fn read_flags(text: &[u8]) -> Option<Flags>
    ensures { MatchOption result
        (are_flags (flags_of text.now) ≡ false)
        (λ flags. (are_flags (flags_of text.now) ≡ true) × AreMeant (flags_of text.now) flags) }
{
    if text.is_empty() {
        return Some(Flags::Scalar);
    }
    if !are_flags(text) {
        return None;
    }
    if has(text, INDEX) {
        return Some(Flags::Index {
            position: has(text, POSITION),
            section: has(text, SECTION),
        });
    }
    if has(text, VECTOR) {
        Some(Flags::Vector)
    } else {
        Some(Flags::Scalar)
    }
}

fn are_flags(text: &[u8]) -> bool
    ensures { result ≡ are_flags (slice_split is_bar text.now) }
{
    let index = has(text, INDEX);
    each_is_flag(text, index)
        && count(text, &[SCALAR, VECTOR, INDEX]) == 1
        && count(text, &[SECTION]) <= 1
        && count(text, &[POSITION]) <= 1
}

// Whether a flag is among the flags.
fn has(text: &[u8], flag: &str) -> bool
    ensures { result ≡ has flag.now (slice_split is_bar text.now) }
{
    let mut rest = text;
    'pieces: while let Some((piece, after)) = cut(rest, BAR) {
        if piece == flag.as_bytes() {
            return true;
        }
        rest = after;
    }
    rest == flag.as_bytes()
}

// Whether each flag may stand there, beside that of an index or not.
fn each_is_flag(text: &[u8], index: bool) -> bool
    ensures { result ≡ list_all (is_flag_beside index) (slice_split is_bar text.now) }
{
    let mut rest = text;
    'pieces: while let Some((piece, after)) = cut(rest, BAR) {
        if !is_flag(piece, index) {
            return false;
        }
        rest = after;
    }
    is_flag(rest, index)
}

// Whether a flag may stand there, beside that of an index or not.
fn is_flag(piece: &[u8], index: bool) -> bool
    ensures { result ≡ is_flag_beside index piece.now }
{
    is_one_of(piece, &[SCALAR, VECTOR, INDEX]) || index && is_one_of(piece, &[SECTION, POSITION])
}

// How many of the flags are among these words.
fn count(text: &[u8], words: &[&str]) -> usize
    ensures { result ≡ count_of (map (λ word. word.now) words.now) (slice_split is_bar text.now) }
{
    let mut rest = text;
    let mut found = 0;
    'pieces: while let Some((piece, after)) = cut(rest, BAR) {
        found += is_one_of(piece, words) as usize;
        rest = after;
    }
    found + is_one_of(rest, words) as usize
}
