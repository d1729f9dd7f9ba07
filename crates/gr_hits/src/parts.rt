// A list of hits around an id.
ghost use Rattle.std.specs.Prelude.{nat_lt};
ghost use Rattle.gr_hits.specs.Hits.{AreHits};
ghost use Rattle.gr_hits.specs.Inside.Parts.{AreParts};

use crate::gallop::{Keyed, count_before};
use gr_base::RecordId;

impl Keyed for (RecordId, u32) {
    type Key = RecordId;

    ghost is_before = { λ hit id. nat_lt hit.0.0 id.0 };

    #[inline]
    fn is_before(&self, id: &RecordId) -> bool {
        self.0.0 < id.0
    }
}

/// What a list of hits has below an id, at it, and above it.
#[derive(Clone, Copy)]
pub(crate) struct Parts<'a> {
    /// The hits below.
    pub(crate) below: &'a [(RecordId, u32)],
    /// The score at the id; 0 where it was not found.
    pub(crate) score: u32,
    /// The hits above.
    pub(crate) above: &'a [(RecordId, u32)],
}

/// The parts of some hits around an id. The cost grows with the logarithm of the number of hits below.
#[inline]
pub(crate) fn parts_at<'a>(hits: &'a [(RecordId, u32)], id: RecordId) -> Parts<'a>
    requires { AreHits hits.now }
    ensures { AreParts hits.now id result.below.now result.score result.above.now }
{
    let (below, rest) = hits.split_at(count_before(hits, &id));
    match rest.split_first() {
        Some((hit, above)) if hit.0.0 == id.0 => Parts {
            below,
            score: hit.1,
            above,
        },
        _ => Parts {
            below,
            score: 0,
            above: rest,
        },
    }
}
