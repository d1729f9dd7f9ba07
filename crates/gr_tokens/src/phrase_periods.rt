// The periods of a phrase's beginnings, by a search for the phrase in itself.
ghost use Rattle.std.specs.Prelude.{◌<◌, ◌≤◌, length};
ghost use Rattle.gr_tokens.specs.Inside.Kept.{ArePeriods};
ghost use Rattle.gr_tokens.specs.Tokens.{words};

use super::periods::Periods;
use super::word_match::{Match, Stop, after_words};

/// The periods of a phrase with a word.
pub(crate) fn periods_of(phrase: &str) -> Periods<'_>
    requires { 0 < length (words phrase.now) }
    ensures { ArePeriods (words phrase.now) result }
{
    let mut periods = Periods::new();
    let mut place = 1;
    let mut here = Match::new(after_words(phrase, 1), phrase);
    loop {
        let stop = here.extend();
        periods.keep(phrase, place, here.matched, here.wanted);
        if !periods.all {
            return periods;
        }
        match stop {
            Stop::Differs => place += here.shift(&periods),
            Stop::Whole | Stop::End => return periods,
        }
    }
}
