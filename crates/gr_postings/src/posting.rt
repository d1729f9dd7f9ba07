// One posting.
ghost use Rattle.std.specs.Prelude.{◌≡◌};

use super::Positions;
use super::view::{PositionsView, PostingView};
use gr_base::RecordId;

/// That a record has a term.
#[derive(Drop)]
pub struct Posting {
    /// The term: the lexicon's record of a token, or the record that is referred to.
    pub term: RecordId,
    /// The record that has it.
    pub id: RecordId,
    /// The journal place of the entry that gave the posting.
    pub place: u64,
    /// Where the term stands in the record, counted in tokens or in elements of a vector. Those of the source s of an index over several are counted from 33,554,432 times s.
    pub positions: Positions,
}

impl Posting {
    ghost use Rattle.gr_postings.specs.Postings.{posting_of};

    /// The posting, lent.
    pub fn lend(&self) -> PostingView<'_>
        ensures { posting_of result ≡ self.now }
    {
        PostingView {
            term: self.term,
            id: self.id,
            place: self.place,
            positions: PositionsView::plain(self.positions.as_slice()),
        }
    }
}
