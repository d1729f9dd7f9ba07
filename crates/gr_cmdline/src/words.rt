// The words of a line: between blanks, or in quotes.
ghost use Rattle.std.specs.Prelude.{◌≡◌, ◌≤◌, ◌<◌, ◌∷◌, [], IfOk, MatchOption, Ok, Some, false, length, option_map, true, ℕ};
ghost use Rattle.gr_cmdline.specs.Inside.Reading.{Begins, ReadsEscaped, ReadsInQuotes, ReadsText, ReadsWord};
ghost use Rattle.gr_base.specs.Text.{is_blank};
ghost use Rattle.gr_cmdline.specs.Words.{rest_with, behind_quotes, escaped, in_quotes, in_word, is_quote, rest_from, with_char, with_text, words};

use crate::cursor::Cursor;
use crate::refused::Refused;
use crate::text::Text;
use gr_base::NoMemory;
use std::alloc::Global;

/// One word.
#[derive(Drop)]
pub(crate) enum Word<'a> {
    /// It stood between blanks.
    Plain(&'a str),
    /// It stood in quotes, which are left out.
    Quoted(Text<'a>),
}

/// What comes next inside quotes.
#[derive(Drop)]
pub(crate) enum QuotedChar {
    /// A character of the text.
    Char(char),
    /// The closing quote.
    Closed,
    /// The line ends first.
    Open,
}

impl<'a> Cursor<'a> {
    /// The next word, where one is left.
    pub(crate) fn next_word(
        &mut self,
        alloc: Global,
    ) -> Result<Result<Option<Word<'a>>, Refused<'a>>, NoMemory>
        ensures { IfOk result (λ read. ReadsWord self.old self.new read) }
    {
        let Some(first) = self.first_of_word() else {
            return Ok(Ok(None));
        };
        if is_quote(first) {
            let _quote = self.next();
            return self.quoted_word(alloc, first);
        }
        let text = self.in_word();
        Ok(Ok(Some(Word::Plain(text))))
    }

    /// The next word, whose quote was read.
    fn quoted_word(
        &mut self,
        alloc: Global,
        quote: char,
    ) -> Result<Result<Option<Word<'a>>, Refused<'a>>, NoMemory>
        requires { is_quote quote ≡ true }
        ensures { IfOk result (λ read. ReadsWord (quote ∷ self.old) self.new read) }
    {
        match self.in_quotes(alloc, quote)? {
            Ok(text) => Ok(Ok(Some(Word::Quoted(text)))),
            Err(refusal) => Ok(Err(refusal)),
        }
    }

    /// Leaves out the blanks that come first; the first character behind them stays.
    fn first_of_word(&mut self) -> Option<char>
        ensures first { MatchOption result (words self.old ≡ Some [])
            (λ c. (is_blank c ≡ false) × (words self.old ≡ words self.new) × Begins c self.new) }
        ensures order { length self.new ≤ length self.old }
    {
        'blanks: loop {
            let c = self.peek()?;
            if !is_blank(c) {
                return Some(c);
            }
            let _blank = self.next();
        }
    }

    /// A word that is not in quotes, up to the next blank, which is taken.
    fn in_word(&mut self) -> &'a str
        ensures text { rest_from in_word self.old ≡ option_map (rest_with result.now) (words self.new) }
        ensures order { 0 < length self.old → length self.new < length self.old }
    {
        let text = self.up_to(' ', '\t');
        let _blank = self.next();
        text
    }

    /// A word in quotes, of which the first was read.
    fn in_quotes(
        &mut self,
        alloc: Global,
        quote: char,
    ) -> Result<Result<Text<'a>, Refused<'a>>, NoMemory>
        requires { quote < 128 }
        ensures text { IfOk result (λ read. ReadsText (rest_from (in_quotes quote) self.old) self.new read) }
        ensures order { length self.new ≤ length self.old }
    {
        let mut text = Text::new();
        'runs: loop {
            text = self.run_in_quotes(alloc, quote, text)?;
            match self.next_in_quotes(quote) {
                QuotedChar::Char(c) => text = text.with_char(alloc, c)?,
                QuotedChar::Closed => return Ok(self.behind_quotes(text)),
                QuotedChar::Open => return Ok(Err(Refused::bad_line())),
            }
        }
    }

    /// A text in quotes so far, with the characters up to the next quote or backslash.
    fn run_in_quotes(
        &mut self,
        alloc: Global,
        quote: char,
        text: Text<'a>,
    ) -> Result<Text<'a>, NoMemory>
        requires { quote < 128 }
        ensures text { IfOk result (λ longer. option_map (with_text text.entry) (rest_from (in_quotes quote) self.old) ≡ option_map (with_text longer) (rest_from (in_quotes quote) self.new)) }
        ensures order { length self.new ≤ length self.old }
    {
        let run = self.up_to(quote, '\\');
        text.with_run(alloc, run)
    }

    /// The next character in quotes.
    #[inline]
    fn next_in_quotes(&mut self, quote: char) -> QuotedChar
        ensures next { ReadsInQuotes quote self.old self.new result }
        ensures order { length self.new ≤ length self.old }
    {
        let Some(c) = self.next() else {
            return QuotedChar::Open;
        };
        if c == quote {
            return QuotedChar::Closed;
        }
        if c == '\\' {
            return self.next_escaped();
        }
        QuotedChar::Char(c)
    }

    /// What the next character stands for behind a backslash.
    fn next_escaped(&mut self) -> QuotedChar
        ensures next { (quote : ℕ) → ReadsEscaped quote self.old self.new result }
        ensures order { length self.new ≤ length self.old }
    {
        match self.next() {
            Some(c) => QuotedChar::Char(escaped(c)),
            None => QuotedChar::Open,
        }
    }

    /// A word in quotes ends where a blank or the line's end follows.
    fn behind_quotes(&mut self, text: Text<'a>) -> Result<Text<'a>, Refused<'a>>
        ensures text { ReadsText (option_map (with_text text.entry) (rest_from behind_quotes self.old)) self.new result }
        ensures order { length self.new ≤ length self.old }
    {
        match self.next() {
            Some(c) => {
                if is_blank(c) {
                    Ok(text)
                } else {
                    Err(Refused::bad_line())
                }
            }
            None => Ok(text),
        }
    }
}

/// What a character behind a backslash stands for.
fn escaped(c: char) -> char
    ensures { result ≡ escaped c }
{
    match c {
        'n' => '\n',
        't' => '\t',
        other => other,
    }
}

fn is_quote(c: char) -> bool
    ensures { result ≡ is_quote c }
{
    c == '"' || c == '\''
}

#[inline]
fn is_blank(c: char) -> bool
    ensures { result ≡ is_blank c }
{
    c == ' ' || c == '\t'
}
