// The one comma that may stand before the last bracket of load data.
ghost use Rattle.std.specs.Prelude.{◌≡◌, ◌++◌, IfOk, option_map, string_bytes};
ghost use Rattle.std.specs.Option.{option_map_or};
ghost use Rattle.std.specs.List.{list_all};
ghost use Rattle.gr_rows.specs.Text.{around_last_comma, closes, is_white, without_last_comma};

use gr_base::NoMemory;
use std::alloc::Global;

/// A copy of load data without the comma before the last bracket, where one stands there.
pub(crate) fn without_last_comma(alloc: Global, text: &str) -> Result<Option<String>, NoMemory>
    ensures { IfOk result (λ copy. option_map_or string_bytes copy text.now ≡ without_last_comma text.now) }
{
    match around_last_comma(text) {
        Some((before, after)) => {
            if closes(after) {
                Ok(Some(joined(alloc, before, after)?))
            } else {
                Ok(None)
            }
        }
        None => Ok(None),
    }
}

fn joined(alloc: Global, before: &str, after: &str) -> Result<String, NoMemory>
    ensures { IfOk result (λ text. string_bytes text ≡ before.now ++ after.now) }
{
    let mut text = String::with_capacity(alloc, before.len() + after.len())?;
    text.push_str(before)?;
    text.push_str(after)?;
    Ok(text)
}

/// What stands before and after the last comma.
fn around_last_comma(text: &str) -> Option<(&str, &str)>
    ensures { option_map (λ parts. (parts.0.now, parts.1.now)) result ≡ around_last_comma text.now }
{
    text.rsplit_once(',')
}

/// Whether this is one closing bracket, white space aside.
fn closes(text: &str) -> bool
    ensures { result ≡ closes text.now }
{
    match text.split_once(']') {
        Some((before, after)) => is_blank(before) && is_blank(after),
        None => false,
    }
}

fn is_blank(text: &str) -> bool
    ensures { result ≡ list_all is_white text.now }
{
    text.as_bytes().iter().all(|byte| is_white(*byte))
}

/// White space of JSON.
fn is_white(byte: u8) -> bool
    ensures { result ≡ is_white byte }
{
    byte == b' ' || byte == b'\t' || byte == b'\n' || byte == b'\r'
}
