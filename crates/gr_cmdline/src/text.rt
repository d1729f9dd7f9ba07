// Texts of a line, that contracts see as lists of bytes.
ghost use Rattle.std.specs.Prelude.{◌≡◌, ◌==◌, ◌++◌, [], IfOk, IsUtf8, None, Some, drop, encode_utf8, if◌then◌else◌, length, option_map};
ghost use Rattle.std.specs.Cow.{cow_str_bytes};
ghost use Rattle.std.specs.List.{starts_with};

use gr_base::{Bytes, NoMemory};
use std::alloc::Global;
use std::borrow::CowStr;
use std::marker::Model;

/// A text that the line holds, or one of its own where the line spells it otherwise.
#[derive(Drop)]
pub(crate) struct Text<'a> {
    text: CowStr<'a>,
}

impl<'a> Model for Text<'a> {
    ghost use Rattle.std.specs.Prelude.{List, ℕ};
    ghost use Rattle.std.specs.Cow.{cow_str_bytes};

    ghost Value = { List ℕ };

    ghost view = { λ text. cow_str_bytes text.text };
}

impl<'a> Text<'a> {
    /// The empty text.
    pub(crate) fn new() -> Text<'a>
        ensures { result ≡ [] }
    {
        Text::lent("")
    }

    /// A text that is lent.
    pub(crate) fn lent(text: &'a str) -> Text<'a>
        ensures { result ≡ text.now }
    {
        Text {
            text: CowStr::Borrowed(text),
        }
    }

    /// Takes over a text that is lent or owned.
    pub(crate) fn from_cow(text: CowStr<'a>) -> Text<'a>
        ensures { result ≡ cow_str_bytes text.entry }
    {
        Text { text }
    }

    /// With a run of the line behind it; the first run stays lent.
    pub(crate) fn with_run(self, alloc: Global, run: &'a str) -> Result<Text<'a>, NoMemory>
        ensures { IfOk result (λ text. text ≡ self.entry ++ run.now) }
    {
        if self.is_empty() {
            return Ok(Text::lent(run));
        }
        let mut text = self.text.into_owned(alloc)?;
        text.push_str(run)?;
        Ok(Text::from_cow(CowStr::Owned(text)))
    }

    /// With a character behind it.
    pub(crate) fn with_char(self, alloc: Global, c: char) -> Result<Text<'a>, NoMemory>
        ensures { IfOk result (λ text. text ≡ self.entry ++ encode_utf8 c) }
    {
        let mut text = self.text.into_owned(alloc)?;
        text.push(c)?;
        Ok(Text::from_cow(CowStr::Owned(text)))
    }

    /// The text once more.
    pub(crate) fn try_clone(&self) -> Result<Text<'a>, NoMemory>
        ensures { IfOk result (λ copy. copy ≡ self.now) }
    {
        Ok(Text {
            text: self.text.clone()?,
        })
    }

    /// The text, lent.
    pub(crate) fn as_str(&self) -> &str
        ensures { result.now ≡ self.now }
    {
        self.text.as_str()
    }

    /// Whether it has no byte.
    pub(crate) fn is_empty(&self) -> bool
        ensures { result ≡ (length self.now == 0) }
    {
        self.text.as_str().is_empty()
    }

    /// The text as one that stays.
    pub(crate) fn into_bytes(self, alloc: Global) -> Result<Bytes, NoMemory>
        ensures exact { IfOk result (λ bytes. bytes ≡ self.entry) }
        ensures utf8 { IfOk result IsUtf8 }
    {
        match self.text {
            CowStr::Borrowed(text) => Bytes::from_slice(alloc, text.as_bytes()),
            CowStr::Owned(text) => Bytes::from_string(alloc, text),
        }
    }
}

/// A text without this front, where it begins with it.
pub(crate) fn without_prefix<'a>(text: &'a str, front: &str) -> Option<&'a str>
    ensures { option_map (λ rest. rest.now) result ≡ (if starts_with ◌==◌ text.now front.now then Some (drop (length front.now) text.now) else None) }
{
    text.strip_prefix(front)
}
