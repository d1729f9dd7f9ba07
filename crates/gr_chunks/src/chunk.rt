// Chunks: postings in bytes, term by term, and a directory of the terms.
ghost use Rattle.std.specs.Prelude.{◌≡◌, ◌≤◌, IfOk, length, map};
ghost use Rattle.std.specs.List.{IsDistinct, filter};
ghost use Rattle.std.specs.List.Sorted.{IsPermutation};
ghost use Rattle.gr_postings.specs.Postings.{IsInOrder, has_same_place, is_of_term, posting_of};
ghost use Rattle.gr_chunks.specs.Inside.Postings.{AreSound};
ghost use Rattle.gr_chunks.specs.Inside.Runs.{run_postings};

use super::coding::chunk_of_views;
use super::cursor::Cursor;
use gr_base::{NoMemory, RecordId};
use gr_postings::{Posting, PostingView};
use std::alloc::Global;
use std::marker::Model;

/// Postings in bytes, by ascending term, then record, then place.
#[derive(Drop)]
pub struct Chunk {
    /// A place that no posting is below. Places are kept as differences from it.
    pub(crate) least: u64,
    /// The terms that have postings, ascending.
    pub(crate) runs: Vec<Run>,
    /// The postings of all runs.
    pub(crate) bytes: Vec<u8>,
}

/// Where the postings of a term stand.
#[derive(Drop)]
pub(crate) struct Run {
    /// The term.
    pub(crate) term: RecordId,
    /// Where its bytes begin.
    pub(crate) start: usize,
    /// How many postings it has.
    pub(crate) count: u64,
}

impl Model for Chunk {
    ghost use Rattle.std.specs.Prelude.{List};
    ghost use Rattle.gr_postings.specs.declared.posting.Posting.{Posting};

    ghost Value = { List Posting };

    ghost use Rattle.gr_chunks.specs.Inside.Runs.{postings_in, IsChunk};

    ghost view = { λ chunk. postings_in chunk.least chunk.runs.items chunk.bytes.items };

    ghost invariant = { λ chunk. IsChunk chunk.least chunk.runs.items chunk.bytes.items };
}

/// The chunk of some postings, of which no two may have one term, record and place.
pub fn chunk_of(alloc: Global, postings: Vec<Posting>) -> Result<Chunk, NoMemory>
    requires { IsDistinct has_same_place postings.items }
    ensures exact { IfOk result (λ chunk. IsPermutation postings.items chunk) }
    ensures order { IfOk result IsInOrder }
{
    let views = lent(alloc, postings.as_slice())?;
    chunk_of_views(alloc, views)
}

// The postings, lent.
fn lent<'a>(alloc: Global, postings: &'a [Posting]) -> Result<Vec<PostingView<'a>>, NoMemory>
    ensures { IfOk result (λ views. map posting_of views.items ≡ postings.now) }
{
    let mut views = Vec::with_capacity(alloc, postings.len())?;
    for posting in postings {
        views.push(posting.lend())?;
    }
    Ok(views)
}

/// The postings of a run.
pub(crate) fn cursor_over<'a>(least: u64, bytes: &'a [u8], run: &Run) -> Cursor<'a>
    requires start { run.now.start ≤ length bytes.now }
    requires sound { AreSound (run_postings least bytes.now run.now) }
    ensures { result ≡ run_postings least bytes.now run.now }
{
    Cursor::over(run.term, least, run.count, &bytes[run.start..])
}

impl Chunk {
    /// A law: the postings of a chunk are in order.
    pub fn is_in_order(&self)
        ensures { IsInOrder self.now }
    {
        let _ = &self.least;
    }

    /// The postings of a term that are to be walked, in order. The cost grows with the logarithm of the number of terms.
    pub fn cursor(&self, term: RecordId) -> Cursor<'_>
        ensures exact { result ≡ filter (is_of_term term) self.now }
        ensures order { IsInOrder result }
    {
        match self.runs.binary_search_by_key(&term.0, |run| run.term.0) {
            Ok(at) => cursor_over(self.least, &self.bytes, &self.runs[at]),
            Err(_) => Cursor::ended(term),
        }
    }
}
