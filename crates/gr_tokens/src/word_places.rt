// The places of a phrase by words in any text, in time linear in the text and the phrase. (Galil and Seiferas, Time-space-optimal
// string matching, 1983.)
ghost use Rattle.std.specs.Prelude.{◌≡◌, min};
ghost use Rattle.std.specs.Str.{bytes_eq};
ghost use Rattle.gr_tokens.specs.Places.{places};
ghost use Rattle.gr_tokens.specs.Tokens.{words};

use super::count::one_more;
use super::delimit::first_word;
use super::phrase_periods::periods_of;
use super::word_match::{Match, Stop};

/// At how many words of the text the phrase's words begin.
pub(crate) fn word_places(text: &str, phrase: &str) -> u32
    ensures { result ≡ min (places bytes_eq (words text.now) (words phrase.now)) 2147483647 }
{
    let Some(_) = first_word(phrase) else {
        return 0;
    };
    let periods = periods_of(phrase);
    let mut here = Match::new(text, phrase);
    let mut count = 0;
    loop {
        match here.extend() {
            Stop::End => return count,
            Stop::Whole => count = one_more(count),
            Stop::Differs => {}
        }
        here.shift(&periods);
    }
}
