// An index beside plain lists.
ghost use Rattle.std.specs.Prelude.{◌≡◌, ◌<◌, IfOk, length};
ghost use Rattle.std.specs.List.{All};

use super::*;
use gr_base::{Failure, RecordId, Steps};
use gr_chunks::{chunk_of, fold};
use gr_postings::{Alive, Buffer, Positions, Posting, buffer_of};
use std::alloc::Global;
use std::test::Fail;

// Of which the postings of every third record are dead.
struct Thirds;

impl Alive for Thirds {
    ghost use Rattle.std.specs.Prelude.{◌==◌, ◌%◌, not};

    ghost lives = { λ _ id _. not (id.0 % 3 == 0) };

    fn alive(&self, id: RecordId, _place: u64) -> bool {
        id.0 % 3 != 0
    }
}

// A buffer of one posting.
fn buffer(alloc: Global, term: u32, id: u32, place: u64) -> Result<Buffer, Fail>
    ensures some { IfOk result (λ b. 0 < length b) }
    ensures one_place { IfOk result (λ b. All (λ p. p.place ≡ place) b) }
{
    let posting = Posting {
        term: RecordId(term),
        id: RecordId(id),
        place,
        positions: Positions::one(u64::MAX),
    };
    Ok(buffer_of(Vec::from_array(alloc, [posting])?)?)
}

// The index with one posting more, or an empty one where its place is too low.
fn with_posting(alloc: Global, index: &Index, term: u32, id: u32, place: u64) -> Result<Index, Fail>
    requires { place < u64.MAX }
{
    let postings = buffer(alloc, term, id, place)?;
    if index.end() > place {
        return Ok(Index::new(alloc, place));
    }
    Ok(index.added(alloc, postings, place, &Thirds)?)
}

// An index with a posting at each place below a number, of which each second has the term 1 and the others the term 2.
fn grown(alloc: Global, count: u32) -> Result<Index, Fail> {
    let mut index = Index::new(alloc, 0);
    for id in 0..count {
        index = with_posting(alloc, &index, 1 + id % 2, id, u64::from(id))?;
    }
    Ok(index)
}

// The records of a term's postings, and the steps that the walk took.
fn walked(alloc: Global, index: &Index, term: u32) -> Result<(Vec<u32>, u64), Fail> {
    let mut steps = Steps::new();
    let mut cursor = index.cursor(RecordId(term));
    let mut ids = Vec::new(alloc);
    while let Some(view) = cursor.next(&mut steps) {
        ids.push(view.id.0)?;
    }
    Ok((ids, steps.count()))
}

// The records with a term that are below a number, without the dead ones of the folded places.
fn wanted(alloc: Global, term: u32, count: u32, folded: u32) -> Result<Vec<u32>, Fail> {
    let mut ids = Vec::new(alloc);
    for id in 0..count {
        if 1 + id % 2 == term && (id >= folded || id % 3 != 0) {
            ids.push(id)?;
        }
    }
    Ok(ids)
}

// The index after a range was folded, if it fits.
fn merged(alloc: Global, index: &Index, range: (u64, u64)) -> Result<Option<Index>, Fail>
    requires { range.0 < range.1 }
{
    match index.take_fold(range) {
        None => Ok(None),
        Some(segments) => {
            let chunk = fold(alloc, segments, &Thirds)?;
            Ok(index.swapped(alloc, range, chunk).ok())
        }
    }
}

// The number of a range that does not fit, or 0.
fn missing(alloc: Global, index: &Index, from: u64, to: u64) -> Result<u64, Fail>
    requires { from < to }
{
    let none = Vec::new(alloc);
    let chunk = chunk_of(alloc, none)?;
    match index.swapped(alloc, (from, to), chunk) {
        Err(Failure::Refused(stale)) => Ok(stale.missing),
        _ => Ok(0),
    }
}

#[test]
fn an_index_of_many_buffers_gives_what_a_list_gives(rt: HostRuntime) -> Result<(), Fail> {
    let alloc = rt.alloc();
    // 65 folds of 16 buffers each; the last made room in level 1 before
    let index = grown(alloc, 1_100)?;
    let counts = [index.count(0), index.count(1), index.count(2)];
    assert_eq!(rt; counts.as_slice(), [60, 49, 1].as_slice());
    let (ids, steps) = walked(alloc, &index, 2)?;
    let list = wanted(alloc, 2, 1_100, 1_040)?;
    assert_eq!(rt; ids.as_slice(), list.as_slice());
    assert_eq!(rt; steps, list.len() as u64);
    assert_eq!(rt; walked(alloc, &index, 3)?.1, 0);
    Ok(())
}

#[test]
fn a_ripe_range_is_folded_and_drops_the_dead(rt: HostRuntime) -> Result<(), Fail> {
    let alloc = rt.alloc();
    let index = grown(alloc, 20)?;
    assert_eq!(rt; index.ripe(), Some((0, 16)));
    let index = merged(alloc, &index, (0, 16))?.unwrap_or(index);
    assert_eq!(rt; index.count(1), 1);
    assert_eq!(rt; index.ripe(), None);
    let list = wanted(alloc, 1, 20, 16)?;
    assert_eq!(rt; walked(alloc, &index, 1)?.0.as_slice(), list.as_slice());
    Ok(())
}

#[test]
fn a_swap_is_stale_where_an_end_is_missing(rt: HostRuntime) -> Result<(), Fail> {
    let alloc = rt.alloc();
    let index = grown(alloc, 3)?;
    assert_eq!(rt; missing(alloc, &index, 1, 3)?, 0);
    assert_eq!(rt; missing(alloc, &index, 7, 9)?, 7);
    assert_eq!(rt; missing(alloc, &index, 1, 9)?, 9);
    Ok(())
}

#[test]
fn numbers_at_the_ends_of_their_types_are_kept(rt: HostRuntime) -> Result<(), Fail> {
    let alloc = rt.alloc();
    let index = Index::new(alloc, u64::MAX - 1);
    let index = with_posting(alloc, &index, u32::MAX, u32::MAX, u64::MAX - 1)?;
    let (ids, steps) = walked(alloc, &index, u32::MAX)?;
    assert_eq!(rt; ids.as_slice(), [u32::MAX].as_slice());
    assert_eq!(rt; steps, 1);
    Ok(())
}
