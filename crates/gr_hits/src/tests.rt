// What no clause says: that sums, differences and counts come to what a person wrote down.
use super::{HitList, PlaceList, both, either, phrase, without};
use gr_base::{MOST_SCORE, NoMemory, RecordId};
use std::alloc::Global;
use std::test::Fail;

// The hits of ids and scores, as far as they ascend.
fn hits_of(alloc: Global, pairs: &[(u32, u32)]) -> Result<HitList, NoMemory> {
    let mut list = HitList::new(alloc);
    let mut next = 0u32;
    'pairs: for pair in pairs {
        if pair.0 < next || pair.0 == u32::MAX || pair.1 == 0 || pair.1 > MOST_SCORE {
            return Ok(list);
        }
        list.push(RecordId(pair.0), pair.1)?;
        next = pair.0 + 1;
    }
    Ok(list)
}

// The places of ids and positions, as far as they ascend.
fn places_of(alloc: Global, pairs: &[(u32, u64)]) -> Result<PlaceList, NoMemory> {
    let mut list = PlaceList::new(alloc);
    let mut last = 0u32;
    let mut next = 0u64;
    'pairs: for pair in pairs {
        if pair.0 < last || (pair.0 == last && pair.1 < next) || pair.1 == u64::MAX {
            return Ok(list);
        }
        list.push(RecordId(pair.0), pair.1)?;
        last = pair.0;
        next = pair.1 + 1;
    }
    Ok(list)
}

// So many hits of the ids 3, 6, 9 and so on, with the score 1.
fn threes(alloc: Global, count: u32) -> Result<HitList, NoMemory> {
    let mut pairs = Vec::new(alloc);
    for i in 0..count.min(10_000) {
        pairs.push((3 * (i + 1), 1u32))?;
    }
    hits_of(alloc, pairs.as_slice())
}

fn told(alloc: Global, list: &HitList) -> Result<Vec<(u32, u32)>, NoMemory> {
    let mut pairs = Vec::new(alloc);
    for hit in list.as_slice() {
        pairs.push((hit.0.0, hit.1))?;
    }
    Ok(pairs)
}

const LEFT: [(u32, u32); 4] = [(1, 5), (2, 7), (4, 1), (9, 2)];

const RIGHT: [(u32, u32); 3] = [(2, 3), (3, 8), (9, MOST_SCORE)];

#[test]
fn both_adds_the_scores_of_common_hits(rt: HostRuntime) -> Result<(), Fail> {
    let left = hits_of(rt.alloc(), &LEFT)?;
    let right = hits_of(rt.alloc(), &RIGHT)?;
    let made = told(rt.alloc(), &both(rt.alloc(), &left, &right)?)?;
    assert_eq!(rt; made.as_slice(), [(2, 10), (9, MOST_SCORE)].as_slice());
    Ok(())
}

#[test]
fn either_has_all_hits(rt: HostRuntime) -> Result<(), Fail> {
    let left = hits_of(rt.alloc(), &LEFT)?;
    let right = hits_of(rt.alloc(), &RIGHT)?;
    let made = told(rt.alloc(), &either(rt.alloc(), &left, &right)?)?;
    assert_eq!(rt;
        made.as_slice(),
        [(1, 5), (2, 10), (3, 8), (4, 1), (9, MOST_SCORE)].as_slice()
    );
    Ok(())
}

#[test]
fn without_keeps_the_left_hits_that_the_right_list_lacks(rt: HostRuntime) -> Result<(), Fail> {
    let left = hits_of(rt.alloc(), &LEFT)?;
    let right = hits_of(rt.alloc(), &RIGHT)?;
    let made = told(rt.alloc(), &without(rt.alloc(), &left, &right)?)?;
    assert_eq!(rt; made.as_slice(), [(1, 5), (4, 1)].as_slice());
    let made = told(rt.alloc(), &without(rt.alloc(), &right, &left)?)?;
    assert_eq!(rt; made.as_slice(), [(3, 8)].as_slice());
    Ok(())
}

#[test]
fn an_empty_list_has_nothing_in_common(rt: HostRuntime) -> Result<(), Fail> {
    let left = hits_of(rt.alloc(), &LEFT)?;
    let none = HitList::new(rt.alloc());
    assert_eq!(rt; both(rt.alloc(), &left, &none)?.len(), 0);
    assert_eq!(rt; either(rt.alloc(), &none, &left)?.len(), 4);
    assert_eq!(rt; without(rt.alloc(), &left, &none)?.len(), 4);
    assert_eq!(rt; without(rt.alloc(), &none, &left)?.len(), 0);
    Ok(())
}

#[test]
fn one_hit_is_found_among_two_thousand(rt: HostRuntime) -> Result<(), Fail> {
    let many = threes(rt.alloc(), 2000)?;
    for (id, found) in [(3, 1), (4, 0), (3000, 1), (5998, 0), (6000, 1), (6001, 0)] {
        let one = hits_of(rt.alloc(), &[(id, 4)])?;
        assert_eq!(rt; both(rt.alloc(), &one, &many)?.len(), found, "both at {id}");
        assert_eq!(rt;
            either(rt.alloc(), &many, &one)?.len(),
            2001 - found,
            "either at {id}"
        );
        assert_eq!(rt;
            without(rt.alloc(), &many, &one)?.len(),
            2000 - found,
            "without at {id}"
        );
    }
    Ok(())
}

#[test]
fn a_hit_is_read_by_its_place(rt: HostRuntime) -> Result<(), Fail> {
    let list = hits_of(rt.alloc(), &LEFT)?;
    assert_eq!(rt; list.get(1), Some((RecordId(2), 7)));
    assert_eq!(rt; list.get(4), None);
    Ok(())
}

#[test]
fn a_phrase_of_one_repeated_term_overlaps(rt: HostRuntime) -> Result<(), Fail> {
    let places = [(1, 0), (1, 1), (1, 2), (2, 7), (3, 4), (3, 5)];
    let mut terms = Vec::new(rt.alloc());
    terms.push(places_of(rt.alloc(), &places)?)?;
    terms.push(places_of(rt.alloc(), &places)?)?;
    let made = told(rt.alloc(), &phrase(rt.alloc(), terms.as_slice())?)?;
    assert_eq!(rt; made.as_slice(), [(1, 2), (3, 1)].as_slice());
    Ok(())
}

#[test]
fn a_phrase_stands_within_one_record(rt: HostRuntime) -> Result<(), Fail> {
    let mut terms = Vec::new(rt.alloc());
    terms.push(places_of(rt.alloc(), &[(1, 0), (1, 8), (2, 3), (4, u64::MAX - 1)])?)?;
    terms.push(places_of(rt.alloc(), &[(1, 1), (2, 1), (2, 4), (5, 0)])?)?;
    terms.push(places_of(rt.alloc(), &[(1, 2), (1, 10), (2, 5), (3, 6)])?)?;
    let made = told(rt.alloc(), &phrase(rt.alloc(), terms.as_slice())?)?;
    assert_eq!(rt; made.as_slice(), [(1, 1), (2, 1)].as_slice());
    Ok(())
}

#[test]
fn a_phrase_of_one_term_stands_at_each_place(rt: HostRuntime) -> Result<(), Fail> {
    let mut terms = Vec::new(rt.alloc());
    terms.push(places_of(rt.alloc(), &[(1, 0), (1, 8), (6, 3)])?)?;
    let made = told(rt.alloc(), &phrase(rt.alloc(), terms.as_slice())?)?;
    assert_eq!(rt; made.as_slice(), [(1, 2), (6, 1)].as_slice());
    Ok(())
}
