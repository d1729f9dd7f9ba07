// Chunks and folds beside plain lists.
ghost use Rattle.std.specs.Prelude.{◌≡◌, IfOk};
ghost use Rattle.gr_postings.specs.Postings.{IsInOrder};
ghost use Rattle.gr_chunks.specs.Segments.{postings_of};

use super::*;
use gr_base::{RecordId, Steps};
use gr_postings::{Alive, Positions, Posting, buffer_of, order_tells_apart};
use std::alloc::Global;
use std::sync::Arc;
use std::test::Fail;

// What a posting shows, with its first and its last position.
type Shown = (u32, u32, u64, u64, u64);

// A posting of two positions.
fn posting(alloc: Global, term: u32, id: u32, place: u64) -> Result<Posting, Fail>
    ensures { IfOk result (λ p. (p.id.0 ≡ id) × (p.place ≡ place)) }
{
    let mut positions = Vec::new(alloc);
    positions.push(u64::from(id))?;
    positions.push(u64::MAX)?;
    Ok(Posting {
        term: RecordId(term),
        id: RecordId(id),
        place,
        positions: Positions::from_vec(alloc, positions)?,
    })
}

// The postings of a term, and the steps that the walk took.
fn walked(alloc: Global, chunk: &Chunk, term: u32) -> Result<(Vec<Shown>, u64), Fail> {
    let mut steps = Steps::new();
    let mut cursor = chunk.cursor(RecordId(term));
    let mut shown = Vec::new(alloc);
    while let Some(view) = cursor.next(&mut steps) {
        let mut positions = view.positions;
        let first = positions.next().unwrap_or(0);
        let last = positions.next().unwrap_or(0);
        shown.push((view.term.0, view.id.0, view.place, first, last))?;
    }
    Ok((shown, steps.count()))
}

#[test]
fn a_chunk_gives_the_postings_of_a_term(rt: HostRuntime) -> Result<(), Fail> {
    let alloc = rt.alloc();
    let later = posting(alloc, u32::MAX, u32::MAX, 0)?;
    let sooner = posting(alloc, u32::MAX, 0, u64::MAX)?;
    let chunk = chunk_of(alloc, Vec::from_array(alloc, [later, sooner])?)?;
    let (shown, steps) = walked(alloc, &chunk, u32::MAX)?;
    let wanted = [
        (u32::MAX, 0, u64::MAX, 0, u64::MAX),
        (u32::MAX, u32::MAX, 0, 4_294_967_295, u64::MAX),
    ];
    assert_eq!(rt; shown.as_slice(), wanted.as_slice());
    assert_eq!(rt; steps, 2);
    assert_eq!(rt; walked(alloc, &chunk, 7)?.1, 0);
    Ok(())
}

// Of which only the postings of records with an even number are alive.
struct Even;

impl Alive for Even {
    ghost use Rattle.std.specs.Prelude.{◌==◌, ◌%◌};

    ghost lives = { λ _ id _. id.0 % 2 == 0 };

    fn alive(&self, id: RecordId, _place: u64) -> bool {
        id.0 % 2 == 0
    }
}

// What a fold of a segment alone leaves.
fn folded(alloc: Global, segment: Segment) -> Result<Chunk, Fail>
    requires { IsInOrder (postings_of segment) }
    ensures { IfOk result IsInOrder }
{
    order_tells_apart();
    let segments = Vec::from_array(alloc, [segment])?;
    Ok(fold(alloc, &segments, &Even)?)
}

#[test]
fn a_fold_keeps_what_is_alive(rt: HostRuntime) -> Result<(), Fail> {
    let alloc = rt.alloc();
    let dead = posting(alloc, 9, 1, 20)?;
    let alive = posting(alloc, 9, 2, 20)?;
    let buffer = buffer_of(Vec::from_array(alloc, [dead, alive])?)?;
    let once = folded(alloc, Segment::Buffer(Arc::new(alloc, buffer)?))?;
    let twice = folded(alloc, Segment::Chunk(Arc::new(alloc, once)?))?;
    let wanted = [(9, 2, 20, 2, u64::MAX)];
    assert_eq!(rt; walked(alloc, &twice, 9)?.0.as_slice(), wanted.as_slice());
    Ok(())
}
