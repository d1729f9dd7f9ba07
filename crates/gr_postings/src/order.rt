// The order of postings.
ghost use Rattle.std.specs.Prelude.{List, OnOk, map};
ghost use Rattle.std.specs.List.{IsDistinct};
ghost use Rattle.std.specs.List.Sorted.{IsPermutation};
ghost use Rattle.gr_postings.specs.Postings.{IsInOrder, has_same_place, posting_of};
ghost use Rattle.gr_postings.specs.declared.posting.Posting.{Posting};

use super::posting::Posting;
use super::view::PostingView;
use gr_base::NoMemory;

/// Puts postings in order, of which no two may have one term, record and place.
pub(crate) fn sort_postings(postings: &mut [Posting])
    requires { IsDistinct has_same_place postings.old }
    ensures exact { IsPermutation postings.old postings.new }
    ensures order { IsInOrder postings.new }
{
    postings.sort_unstable_by_key(|posting| (posting.term, posting.id, posting.place));
}

/// Puts lent postings in order, of which no two may have one term, record and place. Parts that are in order already are merged, and not sorted anew.
pub fn sort_views(views: &mut Vec<PostingView<'_>>) -> Result<(), NoMemory>
    requires { IsDistinct has_same_place (map posting_of views.old.items) }
    ensures exact { IsPermutation (map posting_of views.old.items) (map posting_of views.new.items) }
    ensures order { OnOk result (IsInOrder (map posting_of views.new.items)) }
{
    views.sort_by_key(|view| (view.term, view.id, view.place))?;
    Ok(())
}

/// A law: of postings in order, no two have one term, record and place.
pub fn order_tells_apart()
    ensures { (postings : List Posting) → IsInOrder postings → IsDistinct has_same_place postings }
{}
