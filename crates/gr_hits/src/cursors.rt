// Cursors into the lists of the terms of a phrase.
ghost use Rattle.std.specs.Prelude.{◌≡◌, ◌+◌, ◌≤◌, ◌==◌, ◌&&◌, length, nat_lt, take};
ghost use Rattle.gr_hits.specs.Inside.Cursors.{AllBefore, AreBehind};
ghost use Rattle.gr_hits.specs.Places.{Ascend, stand_from, stands};

use crate::gallop::{Keyed, count_before};
use crate::places::PlaceList;
use gr_base::RecordId;

/// A place that is so many positions further than another. It has no position of its own, which might be none that fits.
#[derive(Clone, Copy)]
pub(crate) struct Spot {
    pub(crate) id: RecordId,
    pub(crate) position: u64,
    pub(crate) further: u64,
}

impl Keyed for (RecordId, u64) {
    ghost use Rattle.std.specs.Prelude.{◌+◌, ◌==◌, ◌&&◌, ◌||◌, nat_lt};

    type Key = Spot;

    ghost is_before = { λ place spot. nat_lt place.0.0 spot.id.0 || (place.0.0 == spot.id.0 && nat_lt place.1 (spot.position + spot.further)) };

    #[inline]
    fn is_before(&self, spot: &Spot) -> bool {
        self.0.0 < spot.id.0 || (self.0.0 == spot.id.0 && is_nearer(self.1, spot))
    }
}

// Whether a position is less than a spot's.
#[inline]
fn is_nearer(position: u64, spot: &Spot) -> bool
    ensures { result ≡ nat_lt position (spot.now.position + spot.now.further) }
{
    position < spot.further || position - spot.further < spot.position
}

// Whether a place is a spot.
#[inline]
fn is_at(place: &(RecordId, u64), spot: &Spot) -> bool
    ensures { result ≡ (place.now.0.0 == spot.now.id.0 && place.now.1 == spot.now.position + spot.now.further) }
{
    place.0.0 == spot.id.0 && place.1 >= spot.further && place.1 - spot.further == spot.position
}

// Whether a term stands at a spot. A cursor that has only places before it behind it is moved up to it.
#[inline]
fn seek(places: &[(RecordId, u64)], cursor: &mut usize, spot: &Spot) -> bool
    requires order { Ascend places.now }
    requires within { cursor.old ≤ length places.now }
    requires behind { AllBefore spot.now.id (spot.now.position + spot.now.further) (take cursor.old places.now) }
    ensures exact { result ≡ stands places.now spot.now.id (spot.now.position + spot.now.further) }
    ensures within { cursor.new ≤ length places.now }
    ensures behind { AllBefore spot.now.id (spot.now.position + spot.now.further) (take cursor.new places.now) }
{
    let (_, rest) = places.split_at(*cursor);
    let skipped = count_before(rest, spot);
    *cursor += skipped;
    let (_, rest) = rest.split_at(skipped);
    match rest.split_first() {
        Some((place, _)) => is_at(place, spot),
        None => false,
    }
}

/// Whether the terms stand one after the other, the first one position further than this place. Each term that is asked has its cursor moved up.
pub(crate) fn follow(
    terms: &[PlaceList],
    cursors: &mut [usize],
    id: RecordId,
    position: u64,
) -> bool
    requires { AreBehind cursors.old terms.now id (position + 1) }
    ensures exact { result ≡ stand_from terms.now id (position + 1) }
    ensures behind { AreBehind cursors.new terms.now id (position + 1) }
{
    for i in 0..terms.len() {
        let term = &terms[i];
        let spot = Spot {
            id,
            position,
            further: i as u64 + 1,
        };
        if !seek(term.as_slice(), &mut cursors[i], &spot) {
            return false;
        }
    }
    true
}
