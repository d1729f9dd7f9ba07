// The words of a text: the pieces between its spaces that are neither empty nor too long.
ghost use Rattle.std.specs.Prelude.{◌≡◌, ◌∷◌, ◌<◌, ◌≤◌, [], IfSome, IsUtf8, MatchOption, length};
ghost use Rattle.std.specs.Iterator.{YieldsFirstRef, item_count};
ghost use Rattle.std.specs.List.{slice_split};
ghost use Rattle.memchr.specs.Find.{IsFirstByte, is_byte};
ghost use Rattle.gr_tokens.specs.Tokens.{is_space, is_word, tokens, words};

use super::Tokenizer;
use memchr::memchr;
use std::marker::Model;

/// The most bytes that a word may have.
pub(crate) const LONGEST_WORD: usize = 4096;

/// The bytes of a word that are looked at one by one, before a search for a space begins.
pub(crate) const SHORT_WORD: usize = 16;

/// The words of a text in order, as slices of it.
#[derive(Drop)]
pub struct Delimit<'a> {
    rest: &'a str,
}

impl<'a> Model for Delimit<'a> {
    ghost use Rattle.std.specs.Prelude.{List, ℕ};
    ghost use Rattle.gr_tokens.specs.Tokens.{words};

    ghost Value = { List (List ℕ) };

    ghost view = { λ delimit. words delimit.rest.now };
}

impl<'a> Delimit<'a> {
    /// The words of `text`.
    pub fn new(text: &'a str) -> Delimit<'a>
        ensures tokens { result ≡ tokens Tokenizer.Delimit text.now }
        ensures few { length result ≤ length text.now }
    {
        Delimit { rest: text }
    }

    /// The text after the words that were given.
    pub(crate) fn rest(&self) -> &'a str
        ensures { words result.now ≡ self.now }
    {
        self.rest
    }
}

impl<'a> Iterator for Delimit<'a> {
    type Item = &'a str;

    ghost next_gives = { YieldsFirstRef (λ words_left. words_left) };

    ghost remaining = { item_count (λ words_left. words_left) };

    fn next(&mut self) -> Option<&'a str> {
        let (word, rest) = first_word(self.rest)?;
        self.rest = rest;
        Some(word)
    }
}

/// The first word of a text and the text after it.
pub(crate) fn first_word(text: &str) -> Option<(&str, &str)>
    ensures { MatchOption result
        (words text.now ≡ [])
        (λ found. words text.now ≡ found.0.now ∷ words found.1.now) }
{
    let mut rest = text;
    while let Some((piece, after)) = cut_at_space(rest) {
        if is_word(piece) {
            return Some((piece, after));
        }
        rest = after;
    }
    if is_word(rest) {
        Some((rest, ""))
    } else {
        None
    }
}

// The text before the first space and the text after it.
fn cut_at_space(text: &str) -> Option<(&str, &str)>
    ensures pieces { MatchOption result
        (slice_split is_space text.now ≡ text.now ∷ [])
        (λ parts. slice_split is_space text.now ≡ parts.0.now ∷ slice_split is_space parts.1.now) }
    ensures shorter { IfSome result (λ parts. length parts.1.now < length text.now) }
    ensures utf8 { IfSome result (λ parts. IsUtf8 parts.1.now) }
{
    let at = first_space(text.as_bytes())?;
    Some((&text[..at], &text[at + 1..]))
}

// Where the first space stands. Most words are short, so the first bytes are looked at one by one.
fn first_space(text: &[u8]) -> Option<usize>
    ensures { IsFirstByte (is_byte 32) text.now result }
{
    let near = text.len().min(SHORT_WORD);
    for at in 0..near {
        if text[at] == b' ' {
            return Some(at);
        }
    }
    let further = memchr(b' ', &text[near..])?;
    Some(near + further)
}

fn is_word(piece: &str) -> bool
    ensures { result ≡ is_word piece.now }
{
    1 <= piece.len() && piece.len() <= LONGEST_WORD
}
