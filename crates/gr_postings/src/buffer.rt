// The postings that one entry gives one index.
ghost use Rattle.std.specs.Prelude.{◌≡◌, ℕ, IfOk};
ghost use Rattle.std.specs.List.{IsDistinct, filter};
ghost use Rattle.std.specs.List.Sorted.{IsPermutation};
ghost use Rattle.gr_postings.specs.Postings.{HaveOnePlace, IsInOrder, has_same_record, is_of_term};

use super::order::sort_postings;
use super::posting::Posting;
use gr_base::{NoMemory, RecordId};
use std::marker::Model;

/// Postings by ascending term, then record, then place.
#[derive(Drop)]
pub struct Buffer {
    postings: Vec<Posting>,
}

impl Model for Buffer {
    ghost use Rattle.std.specs.Prelude.{List};
    ghost use Rattle.gr_postings.specs.declared.posting.Posting.{Posting};

    ghost Value = { List Posting };

    ghost use Rattle.gr_postings.specs.Postings.{IsInOrder};

    ghost view = { λ buffer. buffer.postings.items };

    ghost invariant = { λ buffer. IsInOrder buffer.postings.items };
}

/// Puts postings in order. They must all have one place, and no two of them one term and record. It takes no memory today; a buffer that is kept in another way may.
pub fn buffer_of(postings: Vec<Posting>) -> Result<Buffer, NoMemory>
    requires one_place { HaveOnePlace postings.items }
    requires distinct { IsDistinct has_same_record postings.items }
    ensures exact { IfOk result (λ buffer. IsPermutation postings.items buffer) }
    ensures order { IfOk result IsInOrder }
{
    let mut postings = postings;
    sort_postings(postings.as_mut_slice());
    Ok(Buffer { postings })
}

impl Buffer {
    /// The postings, in order.
    pub fn all(&self) -> &[Posting]
        ensures exact { result.now ≡ self.now }
        ensures order { IsInOrder self.now }
    {
        self.postings.as_slice()
    }

    /// The postings of a term, in order. The cost grows with the logarithm of the number of postings.
    pub fn of_term(&self, term: RecordId) -> &[Posting]
        ensures exact { result.now ≡ filter (is_of_term term) self.now }
        ensures order { IsInOrder result.now }
    {
        of_term(self.postings.as_slice(), term)
    }
}

// The postings of a term among some that are in order.
fn of_term(postings: &[Posting], term: RecordId) -> &[Posting]
    requires { IsInOrder postings.now }
    ensures { result.now ≡ filter (is_of_term term) postings.now }
{
    let from = postings.partition_point(|posting| posting.term.0 < term.0);
    let (_, rest) = postings.split_at(from);
    let count = rest.partition_point(|posting| posting.term.0 <= term.0);
    let (found, _) = rest.split_at(count);
    found
}
