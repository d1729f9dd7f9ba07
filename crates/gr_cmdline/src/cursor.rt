// A place in a line, from which characters and runs of them are read.
ghost use Rattle.std.specs.Prelude.{◌≡◌, ◌<◌, ◌∷◌, ◌++◌, [], All, MatchOption, List, false, true, ℕ};
ghost use Rattle.std.specs.Str.{chars};
ghost use Rattle.memchr.specs.Find.{is_byte2};
ghost use Rattle.gr_cmdline.specs.Inside.Reading.{Begins};

use crate::scan::len_before_two;
use std::marker::Model;

/// The characters of a line that are left.
#[derive(Drop)]
pub(crate) struct Cursor<'a> {
    rest: &'a str,
}

impl<'a> Model for Cursor<'a> {
    ghost use Rattle.std.specs.Prelude.{List, ℕ};
    ghost use Rattle.std.specs.Str.{chars};

    ghost Value = { List ℕ };

    ghost view = { λ cursor. chars cursor.rest.now };
}

impl<'a> Cursor<'a> {
    /// The begin of a line.
    pub(crate) fn new(line: &'a str) -> Cursor<'a>
        ensures { result ≡ chars line.now }
    {
        Cursor { rest: line }
    }

    /// The next character, which stays.
    #[inline]
    pub(crate) fn peek(&self) -> Option<char>
        ensures { MatchOption result (self.now ≡ []) (λ c. Begins c self.now) }
    {
        let (c, _) = first_char(self.rest)?;
        Some(c)
    }

    /// The next character.
    #[inline]
    pub(crate) fn next(&mut self) -> Option<char>
        ensures { MatchOption result ((self.old ≡ []) × (self.new ≡ [])) (λ c. self.old ≡ c ∷ self.new) }
    {
        let (c, rest) = first_char(self.rest)?;
        self.rest = rest;
        Some(c)
    }

    /// The text up to the first of two ASCII characters, which stays, or to the end.
    #[inline]
    pub(crate) fn up_to(&mut self, one: char, other: char) -> &'a str
        requires ascii { (one < 128) × (other < 128) }
        ensures read { self.old ≡ chars result.now ++ self.new }
        ensures run { All (λ c. is_byte2 one other c ≡ false) (chars result.now) }
        ensures stop { (c : ℕ) (cs : List ℕ) → self.new ≡ c ∷ cs → is_byte2 one other c ≡ true }
    {
        let len = len_before_two(self.rest.as_bytes(), one as u8, other as u8);
        let (run, rest) = self.rest.split_at(len);
        self.rest = rest;
        run
    }
}

/// The first character of a text, and what stands behind it.
#[inline]
fn first_char(text: &str) -> Option<(char, &str)>
    ensures { MatchOption result (chars text.now ≡ []) (λ first. chars text.now ≡ first.0 ∷ chars first.1.now) }
{
    let mut chars = text.chars();
    let c = chars.next()?;
    Some((c, chars.as_str()))
}
