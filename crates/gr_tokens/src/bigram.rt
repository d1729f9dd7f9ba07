// The characters of a text, each with the next one.
ghost use Rattle.std.specs.Prelude.{◌≡◌, ◌∷◌, ◌≤◌, [], MatchOption, length};
ghost use Rattle.std.specs.Iterator.{YieldsFirstRef, item_count};
ghost use Rattle.std.specs.Str.{chars};
ghost use Rattle.gr_tokens.specs.Tokens.{bigrams, tokens};

use super::Tokenizer;
use std::marker::Model;

/// The bigrams of a text in order, as slices of it: at each character that one and the next, and
/// at the last one that one alone.
#[derive(Drop)]
pub struct Bigram<'a> {
    rest: &'a str,
}

impl<'a> Model for Bigram<'a> {
    ghost use Rattle.std.specs.Prelude.{List, ℕ};
    ghost use Rattle.std.specs.Str.{chars};
    ghost use Rattle.gr_tokens.specs.Tokens.{bigrams};

    ghost Value = { List (List ℕ) };

    ghost view = { λ bigram. bigrams (chars bigram.rest.now) };
}

impl<'a> Bigram<'a> {
    /// The bigrams of `text`.
    pub fn new(text: &'a str) -> Bigram<'a>
        ensures tokens { result ≡ tokens Tokenizer.Bigram text.now }
        ensures few { length result ≤ length text.now }
    {
        Bigram { rest: text }
    }
}

impl<'a> Iterator for Bigram<'a> {
    type Item = &'a str;

    ghost next_gives = { YieldsFirstRef (λ bigrams_left. bigrams_left) };

    ghost remaining = { item_count (λ bigrams_left. bigrams_left) };

    fn next(&mut self) -> Option<&'a str> {
        let (bigram, rest) = first_bigram(self.rest)?;
        self.rest = rest;
        Some(bigram)
    }
}

// The first bigram of a text and the text after its first character.
fn first_bigram(text: &str) -> Option<(&str, &str)>
    ensures { MatchOption result
        (bigrams (chars text.now) ≡ [])
        (λ found. bigrams (chars text.now) ≡ found.0.now ∷ bigrams (chars found.1.now)) }
{
    let mut chars = text.chars();
    chars.next()?;
    let rest = chars.as_str();
    chars.next();
    let len = text.len() - chars.as_str().len();
    Some((&text[..len], rest))
}
