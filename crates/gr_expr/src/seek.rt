// How often a search finds what it seeks.
ghost use Rattle.std.specs.Prelude.{◌≡◌, ◌+◌, IsUtf8, Some};
ghost use Rattle.std.specs.List.{count_by};
ghost use Rattle.gr_tokens.specs.Tokens.{words};
ghost use Rattle.gr_values.specs.View.{shown};
ghost use Rattle.gr_expr.specs.Fits.{FitsSeek, IsWritten};
ghost use Rattle.gr_expr.specs.Inside.Lent.{literal};
ghost use Rattle.gr_expr.specs.Seeks.{begins_in, begins_with, capped, elements_at, elements_found, found_at, found_in, is_referred, is_written, one_if, places_in, seek_score};
ghost use Rattle.gr_expr.specs.Values.{path_worth};

use crate::path::cell_of_end;
use crate::value::{Value, path_value, referred_key};
use crate::{By, Literal, Rows, Seek, SeekLeaf};
use gr_base::{Bytes, MOST_SCORE, RecordId};
use gr_tokens::{Delimit, How, phrase_places};
use gr_values::{CellView, Field, Key, Path};

/// 1 where this holds.
pub(crate) fn one_if(holds: bool) -> u32
    ensures { result ≡ one_if holds }
{
    if holds { 1 } else { 0 }
}

// The count, and one more where this holds.
fn counted(count: u32, holds: bool) -> u32
    ensures { result ≡ capped (count + one_if holds) }
{
    count.saturating_add(one_if(holds)).min(MOST_SCORE)
}

/// The score of a search.
pub(crate) fn seek<R: Rows>(rows: &R, id: RecordId, leaf: &SeekLeaf) -> u32
    requires { FitsSeek (R.tables rows.now) leaf.now }
    ensures { result ≡ seek_score (R.tables rows.now) id leaf.now }
{
    match (leaf.seek, leaf.by) {
        (Seek::Match, By::Element) => elements_at(rows, id, leaf),
        _ => text_at(rows, id, leaf),
    }
}

// How often the sought text is found in the text at the path.
fn text_at<R: Rows>(rows: &R, id: RecordId, leaf: &SeekLeaf) -> u32
    requires { FitsSeek (R.tables rows.now) leaf.now }
    ensures { result ≡ capped (found_at leaf.now.seek leaf.now.by (path_worth (R.tables rows.now) id leaf.now.path) leaf.now.value) }
{
    match path_value(rows, id, &leaf.path) {
        Some(value) => found_at(leaf, value),
        None => 0,
    }
}

// How often the sought text is found in a value.
fn found_at(leaf: &SeekLeaf, value: Value<'_>) -> u32
    requires sought { IsWritten leaf.now.value }
    requires value { IsWritten (literal value) }
    ensures { result ≡ capped (found_at leaf.now.seek leaf.now.by (Some (literal value.entry)) leaf.now.value) }
{
    match (value, &leaf.value) {
        (Value::Text(text), Literal::Text(sought)) => {
            found_in(leaf.seek, leaf.by, as_text(text), sought.as_text())
        }
        _ => 0,
    }
}

fn as_text(bytes: &[u8]) -> &str
    requires { IsUtf8 bytes.now }
    ensures { result.now ≡ bytes.now }
{
    match str::from_utf8(bytes) {
        Ok(text) => text,
        Err(_) => unreachable!(),
    }
}

/// How often the sought text is found in a text.
pub(crate) fn found_in(seek: Seek, by: By, text: &str, sought: &str) -> u32
    ensures { result ≡ capped (found_in seek by text.now sought.now) }
{
    match seek {
        Seek::Match => places_in(by, text, sought),
        Seek::Prefix => begins_in(by, text, sought),
        Seek::Suffix => one_if(text.as_bytes().ends_with(sought.as_bytes())),
    }
}

fn places_in(by: By, text: &str, sought: &str) -> u32
    ensures { result ≡ capped (places_in by text.now sought.now) }
{
    match by {
        By::Chars => phrase_places(How::Chars, text, sought),
        By::Words => phrase_places(How::Words, text, sought),
        By::Element => 0,
    }
}

fn begins_in(by: By, text: &str, sought: &str) -> u32
    ensures { result ≡ capped (begins_in by text.now sought.now) }
{
    match by {
        By::Words => words_begun(text, sought),
        By::Chars | By::Element => one_if(begins_with(text, sought)),
    }
}

fn begins_with(text: &str, sought: &str) -> bool
    ensures { result ≡ begins_with sought.now text.now }
{
    text.as_bytes().starts_with(sought.as_bytes())
}

// How many words of a text begin with the sought one.
fn words_begun(text: &str, sought: &str) -> u32
    ensures { result ≡ capped (count_by (begins_with sought.now) (words text.now)) }
{
    let mut count = 0;
    for word in Delimit::new(text) {
        count = counted(count, begins_with(word, sought));
    }
    count
}

// How many elements at the path are the sought one.
fn elements_at<R: Rows>(rows: &R, id: RecordId, leaf: &SeekLeaf) -> u32
    ensures { result ≡ capped (elements_at (R.tables rows.now) id leaf.now.path leaf.now.value leaf.now.path.last) }
{
    match leaf.path.last {
        Field::Id | Field::Key => 0,
        Field::Column(column) => match cell_of_end(rows, id, &leaf.path, column) {
            Some(cell) => elements_found(rows, &leaf.path, &leaf.value, cell),
            None => 0,
        },
    }
}

// How many elements of a cell are the sought one.
fn elements_found<R: Rows>(rows: &R, path: &Path, sought: &Literal, cell: CellView<'_>) -> u32
    ensures { result ≡ capped (elements_found (R.tables rows.now) path.now sought.now (shown cell.entry)) }
{
    match cell {
        CellView::Bool(_) | CellView::Int(_) | CellView::Text(_) => 0,
        CellView::Ref(id) => one_if(is_referred(rows, path, sought, id)),
        CellView::RefList(ids) => references_found(rows, path, sought, ids),
        CellView::IntList(numbers) => numbers_found(sought, numbers),
        CellView::TextList(texts) => texts_found(sought, texts),
    }
}

// Whether this is the sought number.
fn is_number(sought: &Literal, number: i128) -> bool
    ensures { result ≡ is_written sought.now (Key.Number number) }
{
    match sought {
        Literal::Number(sought) => *sought == number,
        _ => false,
    }
}

// Whether this is the sought text.
fn is_text(sought: &Literal, text: &Bytes) -> bool
    ensures { result ≡ is_written sought.now (Key.Text text.now) }
{
    match sought {
        Literal::Text(sought) => sought == text,
        _ => false,
    }
}

fn is_written(sought: &Literal, key: &Key) -> bool
    ensures { result ≡ is_written sought.now key.now }
{
    match key {
        Key::Number(number) => is_number(sought, *number),
        Key::Text(text) => is_text(sought, text),
    }
}

// Whether a reference is to a record that is there and has the sought key.
fn is_referred<R: Rows>(rows: &R, path: &Path, sought: &Literal, id: RecordId) -> bool
    ensures { result ≡ is_referred (R.tables rows.now) path.now sought.now id }
{
    match referred_key(rows, path.to, id) {
        Some(key) => is_written(sought, key),
        None => false,
    }
}

fn references_found<R: Rows>(rows: &R, path: &Path, sought: &Literal, ids: &[RecordId]) -> u32
    ensures { result ≡ capped (count_by (is_referred (R.tables rows.now) path.now sought.now) ids.now) }
{
    let mut count = 0;
    for id in ids {
        count = counted(count, is_referred(rows, path, sought, *id));
    }
    count
}

fn numbers_found(sought: &Literal, numbers: &[i128]) -> u32
    ensures { result ≡ capped (count_by (λ number. is_written sought.now (Key.Number number)) numbers.now) }
{
    let mut count = 0;
    for number in numbers {
        count = counted(count, is_number(sought, *number));
    }
    count
}

fn texts_found(sought: &Literal, texts: &[Bytes]) -> u32
    ensures { result ≡ capped (count_by (λ text. is_written sought.now (Key.Text text)) texts.now) }
{
    let mut count = 0;
    for text in texts {
        count = counted(count, is_text(sought, text));
    }
    count
}
