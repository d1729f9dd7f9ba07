// How often a phrase stands in each record.
ghost use Rattle.std.specs.Prelude.{◌≡◌, ◌+◌, ◌<◌, ◌≤◌, ◌∷◌, [], IfOk, length, replicate, vec_len};
ghost use Rattle.std.specs.Vec.{vec_capacity};
ghost use Rattle.gr_hits.specs.Hits.{AreHits};
ghost use Rattle.gr_hits.specs.Places.{Ascend, CountsPhrase};

use crate::counts::count_if;
use crate::cursors::follow;
use crate::hits::HitList;
use crate::places::PlaceList;
use gr_base::{NoMemory, RecordId};
use std::alloc::Global;

/// How often a phrase stands in each record: its terms one after the other. One pass goes over the places of the first term, and each other list is searched from where its cursor is.
pub fn phrase(alloc: Global, terms: &[PlaceList]) -> Result<HitList, NoMemory>
    requires { 0 < length terms.now }
    ensures { IfOk result (CountsPhrase terms.now) }
{
    match terms.split_first() {
        Some((first, others)) => counted(alloc, first.as_slice(), others),
        None => unreachable!(),
    }
}

// How often a phrase of a first term and others stands in each record.
fn counted(
    alloc: Global,
    first: &[(RecordId, u64)],
    others: &[PlaceList],
) -> Result<HitList, NoMemory>
    requires { Ascend first.now }
    ensures { IfOk result (CountsPhrase (first.now ∷ others.now)) }
{
    let mut hits = Vec::with_capacity(alloc, first.len())?;
    let mut cursors = vec![in alloc; 0usize; others.len()]?;
    count_places(&mut hits, first, others, cursors.as_mut_slice());
    Ok(HitList::from_vec(hits))
}

// Counts the places of the first term at which the phrase begins.
fn count_places(
    hits: &mut Vec<(RecordId, u32)>,
    first: &[(RecordId, u64)],
    others: &[PlaceList],
    cursors: &mut [usize],
)
    requires order { Ascend first.now }
    requires none { hits.old.items ≡ [] }
    requires room { vec_len hits.old + length first.now ≤ vec_capacity hits.old }
    requires start { cursors.old ≡ replicate (length others.now) 0 }
    ensures sound { AreHits hits.new.items }
    ensures exact { CountsPhrase (first.now ∷ others.now) hits.new.items }
{
    for place in first {
        let stands = follow(others, cursors, place.0, place.1);
        count_if(hits, place.0, stands);
    }
}
