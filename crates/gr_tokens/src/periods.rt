// The periods of a phrase's beginnings, by words. They are kept so that no word of a text is compared many times.
ghost use Rattle.std.specs.Prelude.{◌≡◌, ◌<◌, ◌≤◌, ◌+◌, ◌*◌, ℕ, IfSome, MatchBool, MatchOption, [], List, length, drop, true, false};
ghost use Rattle.std.specs.List.{All, Contains};
ghost use Rattle.gr_tokens.specs.Inside.Kept.{ArePeriodsBelow, Covers, IsKept, NoneCovers};
ghost use Rattle.gr_tokens.specs.Inside.Periods.{IsPeriod};
ghost use Rattle.gr_tokens.specs.Tokens.{words};

use arrayvec::ArrayVec;

/// The most periods that are kept. Each is more than twice as long as the one before, and the longest is at most a
/// third of its phrase, so a phrase of 16,777,216 bytes has fewer.
const MOST_PERIODS: usize = 32;

/// A period of beginnings of a phrase, their least one: each word is the one so many words before it.
#[derive(Clone, Copy, Default)]
pub(crate) struct Period<'p> {
    /// In words.
    pub(crate) words: usize,
    /// How many words the shortest beginning has.
    pub(crate) from: usize,
    /// How many words the longest beginning has.
    pub(crate) reach: usize,
    /// The phrase after the first `reach - words` words.
    pub(crate) after: &'p str,
}

/// The periods of a phrase's beginnings that are three times as long as they, or longer.
#[derive(Drop)]
pub(crate) struct Periods<'p> {
    kept: ArrayVec<Period<'p>, MOST_PERIODS>,
    /// How many words the longest beginning has whose period is kept.
    pub(crate) reach: usize,
    /// Whether there was room for each of them.
    pub(crate) all: bool,
}

impl<'p> Periods<'p> {
    /// None yet.
    pub(crate) fn new() -> Periods<'p>
        ensures kept { result.kept.items ≡ [] }
        ensures reach { result.reach ≡ 0 }
        ensures all { result.all ≡ true }
    {
        Periods {
            kept: ArrayVec::new(),
            reach: 0,
            all: true,
        }
    }

    /// Keeps the number of words before a place of the phrase in itself as a period of them and the words that
    /// match there, if they are three times as many and no period of as many is kept.
    pub(crate) fn keep(&mut self, phrase: &str, place: usize, matched: usize, after: &'p str)
        requires some { 0 < place }
        requires within { place + matched ≤ length (words phrase.now) }
        requires after { words after.now ≡ drop matched (words phrase.now) }
        requires again { IsPeriod (words phrase.now) (place + matched) place }
        requires below { ArePeriodsBelow (words phrase.now) self.old place }
        ensures below { ArePeriodsBelow (words phrase.now) self.new place }
        ensures reach { self.new.all ≡ true → 2 * place ≤ matched → place + matched ≤ self.new.reach }
    {
        let reach = place + matched;
        if matched / 2 < place || reach <= self.reach {
            return;
        }
        let period = Period {
            words: place,
            from: (3 * place).max(self.reach + 1),
            reach,
            after,
        };
        match self.kept.try_push(period) {
            Ok(()) => self.reach = reach,
            Err(_) => self.all = false,
        }
    }

    /// The period of the beginning of so many words, if it is kept.
    pub(crate) fn of_beginning(&self, count: usize) -> Option<Period<'p>>
        ensures { MatchOption result
            (NoneCovers self.now.kept.items count)
            (λ period. Contains self.now.kept.items period × Covers period count) }
    {
        for period in self.kept.as_slice() {
            if period.from <= count && count <= period.reach {
                return Some(*period);
            }
        }
        None
    }
}
