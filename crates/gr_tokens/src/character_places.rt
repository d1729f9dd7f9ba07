// The places of a phrase by characters. They are its places by bytes, since no character begins inside another.
ghost use Rattle.std.specs.Prelude.{◌≡◌, ◌+◌, ◌<◌, ◌≤◌, IfSome, MatchOption, length, min, nat_eq, true};
ghost use Rattle.std.specs.List.{starts_with};
ghost use Rattle.std.specs.Str.{chars};
ghost use Rattle.gr_tokens.specs.Inside.Alone.{IsNext, NoneStands};
ghost use Rattle.gr_tokens.specs.Inside.Overlaps.{IsOverlap};
ghost use Rattle.gr_tokens.specs.Places.{places};

use super::count::one_more;
use super::overlap::Overlap;
use memchr::memmem::Finder;

/// At how many characters of the text the phrase's characters begin.
pub(crate) fn character_places(text: &str, phrase: &str) -> u32
    ensures { result ≡ min (places nat_eq (chars text.now) (chars phrase.now)) 2147483647 }
{
    byte_places(text.as_bytes(), phrase.as_bytes())
}

fn byte_places(text: &[u8], phrase: &[u8]) -> u32
    ensures { result ≡ min (places nat_eq text.now phrase.now) 2147483647 }
{
    if phrase.is_empty() {
        return 0;
    }
    let finder = Finder::new(phrase);
    match first_place(&finder, text) {
        Some(first) => places_from(&finder, &Overlap::of(phrase), first),
        None => 0,
    }
}

// The places in a text that begins with one.
fn places_from(phrase: &Finder<'_>, overlap: &Overlap<'_>, text: &[u8]) -> u32
    requires some { 0 < length phrase.now }
    requires overlap { IsOverlap phrase.now overlap.now }
    requires here { starts_with nat_eq text.now phrase.now ≡ true }
    ensures { result ≡ min (places nat_eq text.now phrase.now) 2147483647 }
{
    let mut count = 1;
    let mut here = text;
    while let Some(next) = next_place(phrase, overlap, here) {
        count = one_more(count);
        here = next;
    }
    count
}

/// The bytes from the second place on, where the text begins with the first.
pub(crate) fn next_place<'a>(
    phrase: &Finder<'_>,
    overlap: &Overlap<'_>,
    text: &'a [u8],
) -> Option<&'a [u8]>
    requires some { 0 < length phrase.now }
    requires overlap { IsOverlap phrase.now overlap.now }
    requires here { starts_with nat_eq text.now phrase.now ≡ true }
    ensures places { MatchOption result
        (places nat_eq text.now phrase.now ≡ 1)
        (λ next. places nat_eq text.now phrase.now ≡ 1 + places nat_eq next.now phrase.now) }
    ensures here { IfSome result (λ next. starts_with nat_eq next.now phrase.now ≡ true) }
    ensures shorter { IfSome result (λ next. length next.now < length text.now) }
    ensures next { MatchOption result
        (NoneStands text.now phrase.now 1 (length text.now))
        (λ next. IsNext text.now phrase.now 1 next.now) }
{
    let next = &text[overlap.apart..];
    if let Some(tail) = overlap.tail {
        if text[phrase.needle().len()..].starts_with(tail) {
            return Some(next);
        }
    }
    first_place(phrase, next)
}

/// The bytes from the first place on.
pub(crate) fn first_place<'a>(phrase: &Finder<'_>, text: &'a [u8]) -> Option<&'a [u8]>
    requires { 0 < length phrase.now }
    ensures places { MatchOption result
        (places nat_eq text.now phrase.now ≡ 0)
        (λ first. places nat_eq text.now phrase.now ≡ places nat_eq first.now phrase.now) }
    ensures here { IfSome result (λ first. starts_with nat_eq first.now phrase.now ≡ true) }
    ensures no_longer { IfSome result (λ first. length first.now ≤ length text.now) }
    ensures first { MatchOption result
        (NoneStands text.now phrase.now 0 (length text.now))
        (λ first. IsNext text.now phrase.now 0 first.now) }
{
    let at = phrase.find(text)?;
    Some(&text[at..])
}
