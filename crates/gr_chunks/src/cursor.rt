// Walks over the postings of one term.
ghost use Rattle.std.specs.Prelude.{◌≡◌, [], ◌∷◌, MatchOption};
ghost use Rattle.gr_postings.specs.Postings.{posting_of};
ghost use Rattle.gr_chunks.specs.Cursor.{TakesStep};
ghost use Rattle.gr_chunks.specs.Inside.Postings.{postings_after, AreSound};

use gr_base::{RecordId, Steps};
use gr_postings::{PositionsView, PostingView, read_number};
use std::marker::Model;

/// The postings of one term of a chunk that are still to come, in order.
#[derive(Drop)]
pub struct Cursor<'a> {
    term: RecordId,
    least: u64,
    before: u32,
    left: u64,
    bytes: &'a [u8],
}

impl<'a> Model for Cursor<'a> {
    ghost use Rattle.std.specs.Prelude.{List};
    ghost use Rattle.gr_postings.specs.declared.posting.Posting.{Posting};

    ghost Value = { List Posting };

    ghost use Rattle.gr_chunks.specs.Inside.Postings.{postings_after, AreSound};

    ghost view = { λ cursor. postings_after cursor.term cursor.least cursor.before cursor.left cursor.bytes.now };

    ghost invariant = { λ cursor. AreSound (postings_after cursor.term cursor.least cursor.before cursor.left cursor.bytes.now) };
}

impl<'a> Cursor<'a> {
    /// So many postings of a term that stand in bytes.
    pub(crate) fn over(term: RecordId, least: u64, count: u64, bytes: &'a [u8]) -> Cursor<'a>
        requires { AreSound (postings_after term least 0 count bytes.now) }
        ensures { result ≡ postings_after term least 0 count bytes.now }
    {
        Cursor {
            term,
            least,
            before: 0,
            left: count,
            bytes,
        }
    }

    /// No postings of a term.
    pub(crate) fn ended(term: RecordId) -> Cursor<'a>
        ensures { result ≡ [] }
    {
        Cursor::over(term, 0, 0, &[])
    }

    /// The next posting, which is one step, and `None` at the end, which is none.
    #[inline]
    pub fn next(&mut self, steps: &mut Steps) -> Option<PostingView<'a>>
        ensures { TakesStep self.old result self.new steps.old steps.new }
    {
        let view = self.advance()?;
        steps.tick();
        Some(view)
    }

    /// The next posting, and `None` at the end.
    #[inline]
    pub(crate) fn advance(&mut self) -> Option<PostingView<'a>>
        ensures { MatchOption result ((self.old ≡ []) × (self.new ≡ [])) (λ view. self.old ≡ posting_of view ∷ self.new) }
    {
        if self.left == 0 {
            return None;
        }
        let (difference, rest) = read_number(self.bytes);
        let (above, rest) = read_number(rest);
        let (positions, rest) = PositionsView::read(rest);
        let id = self.before + difference as u32;
        let view = PostingView {
            term: self.term,
            id: RecordId(id),
            place: self.least + above,
            positions,
        };
        self.before = id;
        self.left -= 1;
        self.bytes = rest;
        Some(view)
    }
}
