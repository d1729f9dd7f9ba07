// How often a phrase stands in a text.
ghost use Rattle.std.specs.Prelude.{◌≡◌, min};
ghost use Rattle.gr_tokens.specs.Places.{occurrences};

use super::character_places::character_places;
use super::plain_places::places_by_words;

/// What a phrase is compared by.
#[derive(Clone, Copy, Debug, PartialEq, Eq)]
pub enum How {
    /// Its characters, wherever they stand one after the other.
    Chars,
    /// Its words, which are whole words of the text one after the other.
    Words,
}

/// At how many places the phrase stands in the text, overlapping ones included. A count above
/// 2,147,483,647 is given as that number.
///
/// It takes no memory, and time linear in the text and the phrase. By words it is quickest where the words stand one
/// space apart, in the text and in the phrase; a phrase of one word is found as quickly in any text. Elsewhere, what
/// stands between the words of the phrase beside one space (further spaces, and pieces that are too long for a word) is
/// passed anew each time that the phrase is: it is short in phrases that people write.
pub fn phrase_places(how: How, text: &str, phrase: &str) -> u32
    ensures { result ≡ min (occurrences how text.now phrase.now) 2147483647 }
{
    match how {
        How::Chars => character_places(text, phrase),
        How::Words => places_by_words(text, phrase),
    }
}
