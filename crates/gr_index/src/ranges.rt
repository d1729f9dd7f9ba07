// Ranges of journal places over the segments of an index.
ghost use Rattle.std.specs.Prelude.{◌≡◌, false, MatchOption};
ghost use Rattle.gr_index.specs.Ranges.{begins_at, ends_at};
ghost use Rattle.gr_index.specs.Inside.Located.{BeginsAt, EndsBefore};

use crate::parts::Parts;

/// Why a chunk has no range in an index that it can replace.
#[derive(Clone, Copy, Debug, PartialEq, Eq, Drop)]
pub struct Stale {
    /// The range's first number where no segment begins there, and else its second, at which none ends.
    pub missing: u64,
}

/// Where the segment that begins at a journal place stands in the list.
pub(crate) fn beginning(parts: &Parts, place: u64) -> Option<usize>
    ensures { MatchOption result (begins_at place parts.now ≡ false) (BeginsAt place parts.now) }
{
    for at in 0..parts.len() {
        if parts.span(at).from == place {
            return Some(at);
        }
    }
    None
}

/// Where the segment that ends at a journal place stands in the list, and one more.
pub(crate) fn ending(parts: &Parts, place: u64) -> Option<usize>
    ensures { MatchOption result (ends_at place parts.now ≡ false) (EndsBefore place parts.now) }
{
    for at in 0..parts.len() {
        if parts.span(at).to == place {
            return Some(at + 1);
        }
    }
    None
}
