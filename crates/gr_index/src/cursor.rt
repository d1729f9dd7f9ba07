// Walks over the postings of one term of an index.
ghost use Rattle.std.specs.Prelude.{◌≡◌};
ghost use Rattle.std.specs.List.{filter, AllByRecursion};
ghost use Rattle.gr_postings.specs.Postings.{IsInOrder, is_of_term};
ghost use Rattle.gr_chunks.specs.Cursor.{TakesStep};
ghost use Rattle.gr_chunks.specs.Segments.{postings_of as segment_postings};
ghost use Rattle.gr_index.specs.Levels.{postings_of};
ghost use Rattle.gr_index.specs.Inside.Walks.{walk_left, left_of};

use crate::index::Index;
use gr_base::{RecordId, Steps};
use gr_chunks::{Cursor, Segment};
use gr_postings::{Posting, PostingView};
use std::marker::Model;

/// The postings of one term of an index that are still to come, segment by segment from the oldest, in each by record and then by place.
#[derive(Drop)]
pub struct IndexCursor<'a> {
    left: Left<'a>,
}

/// What is left to walk.
#[derive(Drop)]
pub(crate) struct Left<'a> {
    term: RecordId,
    walk: Walk<'a>,
    segments: &'a [Segment],
}

/// What is left of the segment that the cursor stands in.
#[derive(Drop)]
pub(crate) enum Walk<'a> {
    Plain(&'a [Posting]),
    Coded(Cursor<'a>),
}

impl<'a> Model for IndexCursor<'a> {
    ghost use Rattle.std.specs.Prelude.{List};
    ghost use Rattle.gr_postings.specs.declared.posting.Posting.{Posting};

    ghost Value = { List Posting };

    ghost use Rattle.gr_index.specs.Inside.Walks.{left_of};

    ghost view = { λ cursor. left_of cursor.left };
}

impl Index {
    /// The postings of a term that are to be walked, segment by segment from the oldest. Of a segment that does not have the term, only its directory is read.
    pub fn cursor(&self, term: RecordId) -> IndexCursor<'_>
        ensures exact { result ≡ filter (is_of_term term) (postings_of self.now.parts) }
        ensures order { AllByRecursion (λ p. IsInOrder p.postings) self.now.parts }
    {
        IndexCursor {
            left: Left {
                term,
                walk: Walk::Plain(&[]),
                segments: self.parts.segments(),
            },
        }
    }
}

impl<'a> IndexCursor<'a> {
    /// The next posting, which is one step, and `None` at the end, which is none.
    #[inline]
    pub fn next(&mut self, steps: &mut Steps) -> Option<PostingView<'a>>
        ensures { TakesStep self.old result self.new steps.old steps.new }
    {
        self.left.next(steps)
    }
}

impl<'a> Left<'a> {
    // The next posting.
    #[inline]
    fn next(&mut self, steps: &mut Steps) -> Option<PostingView<'a>>
        ensures { TakesStep (left_of self.old) result (left_of self.new) steps.old steps.new }
    {
        loop {
            if let Some(view) = self.walk.next(steps) {
                return Some(view);
            }
            match self.segments.split_first() {
                None => return None,
                Some((segment, segments)) => {
                    self.walk = walk_of(segment, self.term);
                    self.segments = segments;
                }
            }
        }
    }
}

// The postings of a term of a segment.
fn walk_of<'a>(segment: &'a Segment, term: RecordId) -> Walk<'a>
    ensures { walk_left result ≡ filter (is_of_term term) (segment_postings segment.now) }
{
    match segment {
        Segment::Buffer(buffer) => Walk::Plain(buffer.of_term(term)),
        Segment::Chunk(chunk) => Walk::Coded(chunk.cursor(term)),
    }
}

impl<'a> Walk<'a> {
    // The next posting of the segment.
    #[inline]
    fn next(&mut self, steps: &mut Steps) -> Option<PostingView<'a>>
        ensures { TakesStep (walk_left self.old) result (walk_left self.new) steps.old steps.new }
    {
        match self {
            Walk::Coded(cursor) => cursor.next(steps),
            Walk::Plain(postings) => {
                let (first, rest) = postings.split_first()?;
                *postings = rest;
                steps.tick();
                Some(first.lend())
            }
        }
    }
}
