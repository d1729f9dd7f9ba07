// The places of a phrase by words. Where the words of the text and the phrase stand one space apart, these are the
// phrase's places by bytes between spaces.
ghost use Rattle.std.specs.Prelude.{◌≡◌, IfSome, min, true};
ghost use Rattle.std.specs.List.{slice_split};
ghost use Rattle.std.specs.Str.{bytes_eq};
ghost use Rattle.gr_tokens.specs.Places.{places};
ghost use Rattle.gr_tokens.specs.Tokens.{is_space, words};

use super::alone_places::alone_places;
use super::plain::{is_plain, without_outer_spaces};
use super::word_places::word_places;
use memchr::memchr;

/// At how many words of the text the phrase's words begin.
pub(crate) fn places_by_words(text: &str, phrase: &str) -> u32
    ensures { result ≡ min (places bytes_eq (words text.now) (words phrase.now)) 2147483647 }
{
    match plain_places(
        without_outer_spaces(text.as_bytes()),
        without_outer_spaces(phrase.as_bytes()),
    ) {
        Some(count) => count,
        None => word_places(text, phrase),
    }
}

// The same, if the phrase is plain, and the text or a phrase of one word, which no gap of the text can part.
fn plain_places(text: &[u8], phrase: &[u8]) -> Option<u32>
    ensures { IfSome result (λ count. count ≡ min (places bytes_eq (words text.now) (words phrase.now)) 2147483647) }
{
    if is_plain(phrase) && has_piece_places(text, phrase) {
        Some(alone_places(text, phrase))
    } else {
        None
    }
}

// Whether a plain phrase has the same places among the pieces of a text between spaces as among its words.
fn has_piece_places(text: &[u8], phrase: &[u8]) -> bool
    requires { words phrase.now ≡ slice_split is_space phrase.now }
    ensures { result ≡ true → places bytes_eq (words text.now) (words phrase.now) ≡ places bytes_eq (slice_split is_space text.now) (slice_split is_space phrase.now) }
{
    match memchr(b' ', phrase) {
        Some(_) => is_plain(text),
        None => true,
    }
}
