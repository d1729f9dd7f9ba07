// Segments, taken once more.
ghost use Rattle.std.specs.Prelude.{◌≡◌, ◌≤◌, [], ◌∷◌, ◌++◌, IfOk, OnOk, drop, length, map, take};
ghost use Rattle.gr_index.specs.Inside.Parts.{held_of};

use gr_base::NoMemory;
use gr_chunks::Segment;
use std::alloc::Global;
use std::sync::Arc;

/// Appends the segments once more, which share their postings.
pub(crate) fn push_shared(segments: &mut Vec<Segment>, others: &[Segment]) -> Result<(), NoMemory>
    ensures { OnOk result (map held_of segments.new.items ≡ map held_of segments.old.items ++ map held_of others.now) }
{
    segments.reserve(others.len())?;
    for segment in others {
        segments.push(shared(segment)?)?;
    }
    Ok(())
}

/// The segments with one in place of those from one up to another.
pub(crate) fn replaced_segments(
    alloc: Global,
    segments: &[Segment],
    start: usize,
    end: usize,
    segment: Segment,
) -> Result<Vec<Segment>, NoMemory>
    requires start { start ≤ length segments.now }
    requires end { end ≤ length segments.now }
    ensures { IfOk result (λ made. map held_of made.items ≡ take start (map held_of segments.now) ++ held_of segment ∷ [] ++ drop end (map held_of segments.now)) }
{
    let (front, _) = segments.split_at(start);
    let (_, back) = segments.split_at(end);
    let mut made = Vec::new(alloc);
    push_shared(&mut made, front)?;
    made.push(segment)?;
    push_shared(&mut made, back)?;
    Ok(made)
}

// The segment once more.
fn shared(segment: &Segment) -> Result<Segment, NoMemory>
    ensures { IfOk result (λ copy. held_of copy ≡ held_of segment.now) }
{
    match segment {
        Segment::Buffer(buffer) => Ok(Segment::Buffer(Arc::try_clone(buffer)?)),
        Segment::Chunk(chunk) => Ok(Segment::Chunk(Arc::try_clone(chunk)?)),
    }
}
