// Lent postings as the bytes of a chunk.
ghost use Rattle.std.specs.Prelude.{◌≡◌, ◌<◌, ◌≤◌, IfOk, OnOk, map, length};
ghost use Rattle.std.specs.List.{AllByRecursion, IsDistinct};
ghost use Rattle.std.specs.List.Sorted.{IsPermutation};
ghost use Rattle.gr_postings.specs.Postings.{IsInOrder, has_same_place, posting_of};
ghost use Rattle.gr_chunks.specs.Inside.Appends.{AppendsPosting, AppendsRun, AreOfRun, PushesRun};

use super::chunk::{Chunk, Run};
use gr_base::{NoMemory, RecordId};
use gr_postings::{PostingView, push_number, push_positions, sort_views};
use std::alloc::Global;

/// The chunk of some lent postings, of which no two may have one term, record and place.
pub(crate) fn chunk_of_views(alloc: Global, views: Vec<PostingView<'_>>) -> Result<Chunk, NoMemory>
    requires { IsDistinct has_same_place (map posting_of views.items) }
    ensures exact { IfOk result (λ chunk. IsPermutation (map posting_of views.entry.items) chunk) }
    ensures order { IfOk result IsInOrder }
{
    let mut views = views;
    sort_views(&mut views)?;
    chunk_in_order(alloc, views.as_slice())
}

// The chunk of some lent postings that are in order.
fn chunk_in_order(alloc: Global, views: &[PostingView<'_>]) -> Result<Chunk, NoMemory>
    requires { IsInOrder (map posting_of views.now) }
    ensures { IfOk result (λ chunk. chunk ≡ map posting_of views.now) }
{
    let least = least_place(views);
    let mut runs = Vec::new(alloc);
    let mut bytes = Vec::new(alloc);
    let mut at = 0;
    while at < views.len() {
        let (_, rest) = views.split_at(at);
        at += push_front(&mut runs, &mut bytes, least, rest)?;
    }
    runs.shrink_to_fit();
    bytes.shrink_to_fit();
    Ok(Chunk { least, runs, bytes })
}

// The least place of a posting, or the greatest number where there is no posting.
fn least_place(views: &[PostingView<'_>]) -> u64
    ensures { AllByRecursion (λ p. result ≤ p.place) (map posting_of views.now) }
{
    let mut least = u64::MAX;
    for view in views {
        least = least.min(view.place);
    }
    least
}

// Appends the run of the first posting's term, and gives the number of its postings.
fn push_front(
    runs: &mut Vec<Run>,
    bytes: &mut Vec<u8>,
    least: u64,
    views: &[PostingView<'_>],
) -> Result<usize, NoMemory>
    requires some { 0 < length views.now }
    requires order { IsInOrder (map posting_of views.now) }
    requires places { AllByRecursion (λ p. least ≤ p.place) (map posting_of views.now) }
    ensures { IfOk result (λ count. PushesRun least runs.old.items runs.new.items bytes.old.items bytes.new.items views.now count) }
{
    let term = views[0].term;
    let count = views.partition_point(|view| view.term.0 <= term.0);
    let (front, _) = views.split_at(count);
    let start = bytes.len();
    push_run(bytes, term, least, front)?;
    runs.push(Run {
        term,
        start,
        count: count as u64,
    })?;
    Ok(count)
}

// Appends the postings of one term.
fn push_run(
    bytes: &mut Vec<u8>,
    term: RecordId,
    least: u64,
    views: &[PostingView<'_>],
) -> Result<(), NoMemory>
    requires { AreOfRun term least 0 (map posting_of views.now) }
    ensures { OnOk result (AppendsRun term least bytes.old.items bytes.new.items (map posting_of views.now)) }
{
    let mut before = 0;
    for view in views {
        push_posting(bytes, least, before, view)?;
        before = view.id.0;
    }
    Ok(())
}

// Appends one posting, after one of this record.
fn push_posting(
    bytes: &mut Vec<u8>,
    least: u64,
    before: u32,
    view: &PostingView<'_>,
) -> Result<(), NoMemory>
    requires place { least ≤ view.now.place }
    requires id { before ≤ view.now.id.0 }
    ensures { OnOk result (AppendsPosting least before bytes.old.items bytes.new.items (posting_of view.now)) }
{
    push_number(bytes, u64::from(view.id.0 - before))?;
    push_number(bytes, view.place - least)?;
    push_positions(bytes, view.positions.again())
}
