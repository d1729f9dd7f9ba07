// Runs: characters side by side, with escapes among them.
ghost use Rattle.std.specs.Prelude.{◌≡◌, ◌++◌, ◌∷◌, ◌<◌, ◌≤◌, List, ℕ, IfNone, IfOk, IfSome, IsUtf8, drop, length, take};
ghost use Rattle.std.specs.List.{prefix_len};
ghost use Rattle.std.specs.Str.{IsCharBoundary};
ghost use Rattle.std.specs.Bool.{OnTrue};
ghost use Rattle.gr_query.specs.Inside.Reading.{EndsInStar, HasEscape, shown_run, unescaped};
ghost use Rattle.gr_query.specs.Runs.{begins_escape, is_run, no_run, run_from, with_byte};

use gr_base::NoMemory;
use gr_text::is_white_space;
use std::alloc::Global;

/// A run that was read.
#[derive(Drop)]
pub(crate) struct ScannedRun {
    /// What it means.
    pub(crate) text: Vec<u8>,
    /// How many bytes it has, none where no run stands here.
    pub(crate) len: usize,
    /// Its last character is a `*` with no escape.
    pub(crate) is_starred: bool,
}

/// A byte of a run, and how many bytes it was read from.
#[derive(Clone, Copy)]
struct Character {
    byte: u8,
    len: usize,
    is_star: bool,
}

/// The run that the bytes begin with, if no escape stands in it.
pub(crate) fn stretch(bytes: &[u8]) -> Option<&[u8]>
    ensures exact { IfSome result (λ run. run_from bytes.now ≡ unescaped run.now) }
    ensures front { IfSome result (λ run. run.now ≡ take (length run.now) bytes.now) }
    ensures within { IfSome result (λ run. length run.now ≤ length bytes.now) }
    ensures text { IsUtf8 bytes.now → IfSome result (λ run. IsUtf8 run.now) }
    ensures rest { IsUtf8 bytes.now → IfSome result (λ run. IsUtf8 (drop (length run.now) bytes.now)) }
    ensures none { IfNone result (HasEscape bytes.now) }
{
    let (run, behind) = bytes.split_at(stretch_len(bytes));
    if begins_escape(behind) {
        None
    } else {
        Some(run)
    }
}

/// A backslash stands first, and a character behind it.
fn begins_escape(bytes: &[u8]) -> bool
    ensures { result ≡ begins_escape bytes.now }
{
    bytes.len() > 1 && bytes[0] == b'\\'
}

/// How many characters that stand for themselves the bytes begin with.
fn stretch_len(bytes: &[u8]) -> usize
    ensures exact { result ≡ prefix_len is_run bytes.now }
    ensures within { result ≤ length bytes.now }
{
    bytes.iter().take_while(|byte| is_run(**byte)).count()
}

/// The run that the bytes begin with, as long as it goes.
pub(crate) fn run_from(alloc: Global, bytes: &[u8]) -> Result<ScannedRun, NoMemory>
    ensures exact { IfOk result (λ run. shown_run run ≡ run_from bytes.now) }
    ensures star { IfOk result (λ run. OnTrue run.is_starred (EndsInStar run.text.items)) }
    ensures within { IfOk result (λ run. run.len ≤ length bytes.now) }
    ensures text { IsUtf8 bytes.now → IfOk result (λ run. IsUtf8 run.text.items) }
    ensures rest { IsUtf8 bytes.now → IfOk result (λ run. IsUtf8 (drop run.len bytes.now)) }
{
    let mut text = Vec::new(alloc);
    let mut rest = bytes;
    let mut is_starred = false;
    'characters: while let Some(next) = next_character(rest) {
        text.push(next.byte)?;
        is_starred = next.is_star;
        rest = rest.split_at(next.len).1;
    }
    Ok(ScannedRun {
        text,
        len: bytes.len() - rest.len(),
        is_starred,
    })
}

/// The character that the bytes begin with, if a run goes on with it.
fn next_character(bytes: &[u8]) -> Option<Character>
    ensures some { IfSome result (λ next. 0 < next.len) }
    ensures within { IfSome result (λ next. next.len ≤ length bytes.now) }
    ensures further { IfSome result (λ next. run_from bytes.now ≡ with_byte next.byte next.len next.is_star (run_from (drop next.len bytes.now))) }
    ensures star { IfSome result (λ next. OnTrue next.is_star (next.byte ≡ 42)) }
    ensures text { IfSome result (λ next. (front : List ℕ) → IsUtf8 (front ++ bytes.now) → IsUtf8 (front ++ next.byte ∷ drop next.len bytes.now)) }
    ensures none { IfNone result (run_from bytes.now ≡ no_run) }
    ensures stop { IfNone result (IsCharBoundary bytes.now 0) }
{
    let (first, others) = bytes.split_first()?;
    if *first == b'\\' {
        let (escaped, _) = others.split_first()?;
        return Some(Character {
            byte: *escaped,
            len: 2,
            is_star: false,
        });
    }
    if !is_run(*first) {
        return None;
    }
    Some(Character {
        byte: *first,
        len: 1,
        is_star: *first == b'*',
    })
}

/// A character that stands for itself in a run.
fn is_run(byte: u8) -> bool
    ensures { result ≡ is_run byte }
{
    !(is_white_space(byte) || byte == b'"' || byte == b'(' || byte == b')' || byte == b'\\')
}
