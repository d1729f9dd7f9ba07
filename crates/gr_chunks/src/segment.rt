// Segments, and folds of several into one chunk.
ghost use Rattle.std.specs.Prelude.{◌≡◌, ◌++◌, ◌≤◌, IfOk, OnOk, length, map};
ghost use Rattle.std.specs.List.{AllByRecursion, IsDistinct};
ghost use Rattle.std.specs.List.Sorted.{IsPermutation};
ghost use Rattle.gr_postings.specs.Postings.{IsInOrder, has_same_place, posting_of};
ghost use Rattle.gr_chunks.specs.Segments.{all_of, living, postings_of};
ghost use Rattle.gr_chunks.specs.Inside.Postings.{AreSound};
ghost use Rattle.gr_chunks.specs.Inside.Runs.{postings_in};

use super::chunk::{Chunk, Run, cursor_over};
use super::coding::chunk_of_views;
use super::cursor::Cursor;
use gr_base::NoMemory;
use gr_postings::{Alive, Buffer, Posting, PostingView};
use std::alloc::Global;
use std::sync::Arc;

/// Postings of one index that are kept together.
#[derive(Drop)]
pub enum Segment {
    /// Those that one entry gave.
    Buffer(Arc<Buffer>),
    /// Those that several entries gave, in bytes.
    Chunk(Arc<Chunk>),
}

/// The chunk of the postings of some segments that are alive. No two postings of the segments may have one term, record and place. The segments stay as they are.
pub fn fold<A: Alive>(alloc: Global, segments: &[Segment], alive: &A) -> Result<Chunk, NoMemory>
    requires { IsDistinct has_same_place (all_of segments.now) }
    ensures exact { IfOk result (λ chunk. IsPermutation (living (A.lives alive.now) (all_of segments.now)) chunk) }
    ensures order { IfOk result IsInOrder }
{
    let mut views = Vec::new(alloc);
    for segment in segments {
        push_segment(&mut views, segment, alive)?;
    }
    chunk_of_views(alloc, views)
}

// Appends the postings of a segment that are alive.
fn push_segment<'a, A: Alive>(
    views: &mut Vec<PostingView<'a>>,
    segment: &'a Segment,
    alive: &A,
) -> Result<(), NoMemory>
    ensures { OnOk result (map posting_of views.new.items ≡ map posting_of views.old.items ++ living (A.lives alive.now) (postings_of segment.now)) }
{
    match segment {
        Segment::Buffer(buffer) => push_postings(views, buffer.all(), alive),
        Segment::Chunk(chunk) => push_chunk(views, chunk, alive),
    }
}

// Appends the postings that are alive.
fn push_postings<'a, A: Alive>(
    views: &mut Vec<PostingView<'a>>,
    postings: &'a [Posting],
    alive: &A,
) -> Result<(), NoMemory>
    ensures { OnOk result (map posting_of views.new.items ≡ map posting_of views.old.items ++ living (A.lives alive.now) postings.now) }
{
    for posting in postings {
        if alive.alive(posting.id, posting.place) {
            views.push(posting.lend())?;
        }
    }
    Ok(())
}

// Appends the postings of a chunk that are alive.
fn push_chunk<'a, A: Alive>(
    views: &mut Vec<PostingView<'a>>,
    chunk: &'a Chunk,
    alive: &A,
) -> Result<(), NoMemory>
    ensures { OnOk result (map posting_of views.new.items ≡ map posting_of views.old.items ++ living (A.lives alive.now) chunk.now) }
{
    push_runs(views, chunk.least, &chunk.bytes, &chunk.runs, alive)
}

// Appends the postings of some runs that are alive.
fn push_runs<'a, A: Alive>(
    views: &mut Vec<PostingView<'a>>,
    least: u64,
    bytes: &'a [u8],
    runs: &'a [Run],
    alive: &A,
) -> Result<(), NoMemory>
    requires starts { AllByRecursion (λ run. run.start ≤ length bytes.now) runs.now }
    requires sound { AreSound (postings_in least runs.now bytes.now) }
    ensures { OnOk result (map posting_of views.new.items ≡ map posting_of views.old.items ++ living (A.lives alive.now) (postings_in least runs.now bytes.now)) }
{
    for run in runs {
        push_walk(views, cursor_over(least, bytes, run), alive)?;
    }
    Ok(())
}

// Appends the postings that are alive of those that are to be walked.
fn push_walk<'a, A: Alive>(
    views: &mut Vec<PostingView<'a>>,
    walk: Cursor<'a>,
    alive: &A,
) -> Result<(), NoMemory>
    ensures { OnOk result (map posting_of views.new.items ≡ map posting_of views.old.items ++ living (A.lives alive.now) walk.entry) }
{
    let mut walk = walk;
    while let Some(view) = walk.advance() {
        if alive.alive(view.id, view.place) {
            views.push(view)?;
        }
    }
    Ok(())
}
