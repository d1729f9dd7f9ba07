// The places of a phrase between spaces, by its places by bytes.
ghost use Rattle.std.specs.Prelude.{◌≡◌, ◌<◌, ◌≤◌, ◌-◌, ◌&&◌, length, drop, min, true};
ghost use Rattle.gr_tokens.specs.Inside.Alone.{IsNext, closes, opens, places_alone};
ghost use Rattle.gr_tokens.specs.Inside.Overlaps.{IsOverlap};

use super::character_places::{first_place, next_place};
use super::count::one_more_if;
use super::overlap::Overlap;
use memchr::memmem::Finder;

/// At how many places of the text the phrase stands with a space or an end of the text on both its sides.
pub(crate) fn alone_places(text: &[u8], phrase: &[u8]) -> u32
    requires { 0 < length phrase.now }
    ensures { result ≡ min (places_alone true text.now phrase.now) 2147483647 }
{
    let finder = Finder::new(phrase);
    match first_place(&finder, text) {
        Some(first) => alone_from(&finder, &Overlap::of(phrase), text, first),
        None => 0,
    }
}

// The same, from the first place of the phrase by bytes on.
fn alone_from(phrase: &Finder<'_>, overlap: &Overlap<'_>, text: &[u8], first: &[u8]) -> u32
    requires some { 0 < length phrase.now }
    requires overlap { IsOverlap phrase.now overlap.now }
    requires first { IsNext text.now phrase.now 0 first.now }
    ensures { result ≡ min (places_alone true text.now phrase.now) 2147483647 }
{
    let mut count = 0;
    let mut here = first;
    loop {
        count = one_more_if(count, is_alone(text, here, phrase.needle().len()));
        match next_place(phrase, overlap, here) {
            Some(next) => here = next,
            None => return count,
        }
    }
}

// Whether a space or an end stands on both sides of the first so many bytes of the last part of a text.
fn is_alone(text: &[u8], here: &[u8], size: usize) -> bool
    requires within { length here.now ≤ length text.now }
    requires fits { size ≤ length here.now }
    ensures { result ≡ (opens true text.now (length text.now - length here.now) && closes (drop size here.now)) }
{
    is_opened(text, text.len() - here.len()) && is_closed(&here[size..])
}

// Whether a place is the first or a space stands before it.
fn is_opened(text: &[u8], at: usize) -> bool
    requires { at ≤ length text.now }
    ensures { result ≡ opens true text.now at }
{
    at == 0 || text[at - 1] == b' '
}

// Whether bytes are none or begin with a space.
fn is_closed(rest: &[u8]) -> bool
    ensures { result ≡ closes rest.now }
{
    rest.is_empty() || rest[0] == b' '
}
