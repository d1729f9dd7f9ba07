// How far the words of a phrase stand in a text from one word on.
ghost use Rattle.std.specs.Prelude.{◌≡◌, ◌<◌, ◌≤◌, ◌+◌, ◌/◌, ℕ, length, drop};
ghost use Rattle.std.specs.List.{All};
ghost use Rattle.gr_tokens.specs.Inside.Kept.{Covers, IsKept, IsKnown};
ghost use Rattle.gr_tokens.specs.Inside.Matches.{ArePassed, IsLongest, IsMatch, StopsBy};
ghost use Rattle.gr_tokens.specs.Tokens.{words};

use super::delimit::first_word;
use super::periods::{Period, Periods};
use super::same_word::after_same_word;

/// Why a match goes no further.
#[derive(Clone, Copy)]
pub(crate) enum Stop {
    /// Each word of the phrase matches.
    Whole,
    /// The text has no further word.
    End,
    /// The next words differ.
    Differs,
}

/// The first words of a phrase that stand in a text from one word on.
#[derive(Drop)]
pub(crate) struct Match<'t, 'p> {
    pub(crate) phrase: &'p str,
    /// The text from the first of the words on.
    pub(crate) text: &'t str,
    // the text after the words
    after: &'t str,
    /// The phrase after the words.
    pub(crate) wanted: &'p str,
    /// How many words they are.
    pub(crate) matched: usize,
}

impl<'t, 'p> Match<'t, 'p> {
    /// No words yet.
    pub(crate) fn new(text: &'t str, phrase: &'p str) -> Match<'t, 'p>
        ensures is_match { IsMatch result }
        ensures phrase { result.phrase.now ≡ phrase.now }
        ensures text { result.text.now ≡ text.now }
    {
        Match {
            phrase,
            text,
            after: text,
            wanted: phrase,
            matched: 0,
        }
    }

    /// Matches as many words as there are.
    pub(crate) fn extend(&mut self) -> Stop
        requires { IsMatch self.old }
        ensures is_match { IsMatch self.new }
        ensures phrase { self.new.phrase.now ≡ self.old.phrase.now }
        ensures text { self.new.text.now ≡ self.old.text.now }
        ensures stops { StopsBy self.new result }
    {
        loop {
            if let Some((after, others)) = after_same_word(self.after, self.wanted) {
                self.after = after;
                self.wanted = others;
                self.matched += 1;
                continue;
            }
            let Some((wanted, others)) = first_word(self.wanted) else {
                return Stop::Whole;
            };
            let Some((word, after)) = first_word(self.after) else {
                return Stop::End;
            };
            if word != wanted {
                return Stop::Differs;
            }
            self.after = after;
            self.wanted = others;
            self.matched += 1;
        }
    }

    /// Goes on to the next word of the text where the phrase may stand, and answers how many words on that is.
    pub(crate) fn shift(&mut self, periods: &Periods<'p>) -> usize
        requires is_match { IsMatch self.old }
        requires longest { self.old.matched < length (words self.old.phrase.now) → IsLongest self.old }
        requires kept { All (IsKept (words self.old.phrase.now)) periods.now.kept.items }
        requires known { IsKnown (words self.old.phrase.now) periods.now self.old.matched }
        ensures is_match { IsMatch self.new }
        ensures phrase { self.new.phrase.now ≡ self.old.phrase.now }
        ensures text { words self.new.text.now ≡ drop result (words self.old.text.now) }
        ensures low { 0 < result }
        ensures high { result ≤ self.old.matched + 1 }
        ensures passed { ArePassed (words self.old.text.now) (words self.old.phrase.now) self.old.matched result }
    {
        match periods.of_beginning(self.matched) {
            Some(period) => {
                if self.matched == period.reach {
                    self.shift_once(&period);
                    period.words
                } else {
                    self.shift_often(&period)
                }
            }
            None => {
                let words = if periods.all { self.matched / 3 + 1 } else { 1 };
                self.begin_anew(words);
                words
            }
        }
    }

    // Goes on by so many words, where none of them matches yet.
    fn begin_anew(&mut self, count: usize)
        requires { IsMatch self.old }
        ensures is_match { IsMatch self.new }
        ensures phrase { self.new.phrase.now ≡ self.old.phrase.now }
        ensures text { words self.new.text.now ≡ drop count (words self.old.text.now) }
    {
        self.text = after_words(self.text, count);
        self.after = self.text;
        self.wanted = self.phrase;
        self.matched = 0;
    }

    // Goes on by the period of the longest beginning that has it. The other words still match.
    fn shift_once(&mut self, period: &Period<'p>)
        requires is_match { IsMatch self.old }
        requires kept { IsKept (words self.old.phrase.now) period.now }
        requires covers { Covers period.now self.old.matched }
        requires reach { self.old.matched ≡ period.now.reach }
        ensures is_match { IsMatch self.new }
        ensures phrase { self.new.phrase.now ≡ self.old.phrase.now }
        ensures text { words self.new.text.now ≡ drop period.now.words (words self.old.text.now) }
    {
        self.text = after_words(self.text, period.words);
        self.wanted = period.after;
        self.matched -= period.words;
    }

    // Goes on by the period of a shorter beginning as often as it is one, since the next words would differ as they do now.
    fn shift_often(&mut self, period: &Period<'p>) -> usize
        requires is_match { IsMatch self.old }
        requires longest { IsLongest self.old }
        requires kept { IsKept (words self.old.phrase.now) period.now }
        requires covers { Covers period.now self.old.matched }
        requires short { self.old.matched < period.now.reach }
        ensures is_match { IsMatch self.new }
        ensures phrase { self.new.phrase.now ≡ self.old.phrase.now }
        ensures text { words self.new.text.now ≡ drop result (words self.old.text.now) }
        ensures low { 0 < result }
        ensures high { result ≤ self.old.matched }
        ensures passed { ArePassed (words self.old.text.now) (words self.old.phrase.now) self.old.matched result }
    {
        let mut shift = 0;
        while period.from <= self.matched {
            self.text = after_words(self.text, period.words);
            self.matched -= period.words;
            shift += period.words;
        }
        self.wanted = after_words(self.phrase, self.matched);
        shift
    }
}

/// The text after so many words.
pub(crate) fn after_words(text: &str, count: usize) -> &str
    ensures { words result.now ≡ drop count (words text.now) }
{
    let mut rest = text;
    let mut left = count;
    while left > 0 {
        match first_word(rest) {
            Some((_, after)) => rest = after,
            None => return "",
        }
        left -= 1;
    }
    rest
}
