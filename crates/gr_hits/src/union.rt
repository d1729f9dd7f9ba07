// The hits of either of two lists.
ghost use Rattle.std.specs.Prelude.{IfOk};
ghost use Rattle.gr_hits.specs.Hits.{AreHits, Scores, sum};
ghost use Rattle.gr_hits.specs.Inside.Sums.{AreSums};

use crate::hits::HitList;
use crate::merge::{is_far_shorter, one_if, score_if};
use crate::parts::parts_at;
use crate::room::{append_hit, append_hits};
use crate::scores;
use gr_base::{NoMemory, RecordId};
use std::alloc::Global;

/// The hits of either list, with the sums of their scores. A list that is far shorter is walked, and what the other one has between is appended in one piece.
pub fn either(alloc: Global, left: &HitList, right: &HitList) -> Result<HitList, NoMemory>
    ensures { IfOk result (Scores sum left.now right.now) }
{
    let left = left.as_slice();
    let right = right.as_slice();
    let hits = if is_far_shorter(left, right) {
        either_by_walking(alloc, left, right)?
    } else if is_far_shorter(right, left) {
        either_by_walking(alloc, right, left)?
    } else {
        either_by_merging(alloc, left, right)?
    };
    Ok(HitList::from_vec(hits))
}

// The hits of either list, of which the first is walked.
fn either_by_walking(
    alloc: Global,
    walked: &[(RecordId, u32)],
    searched: &[(RecordId, u32)],
) -> Result<Vec<(RecordId, u32)>, NoMemory>
    requires walked { AreHits walked.now }
    requires searched { AreHits searched.now }
    ensures { IfOk result (λ hits. AreSums sum walked.now searched.now hits.items) }
{
    let mut hits = Vec::with_capacity(alloc, walked.len() + searched.len())?;
    let mut rest = searched;
    for hit in walked {
        let parts = parts_at(rest, hit.0);
        rest = parts.above;
        append_hits(&mut hits, parts.below);
        append_hit(&mut hits, hit.0, scores::sum(hit.1, parts.score));
    }
    append_hits(&mut hits, rest);
    Ok(hits)
}

// The hits of either list, which are merged.
fn either_by_merging(
    alloc: Global,
    left: &[(RecordId, u32)],
    right: &[(RecordId, u32)],
) -> Result<Vec<(RecordId, u32)>, NoMemory>
    requires left { AreHits left.now }
    requires right { AreHits right.now }
    ensures { IfOk result (λ hits. AreSums sum left.now right.now hits.items) }
{
    let mut hits = Vec::with_capacity(alloc, left.len() + right.len())?;
    let mut i = 0usize;
    let mut j = 0usize;
    'merge: while i < left.len() && j < right.len() {
        let (id, score) = left[i];
        let (other, more) = right[j];
        append_hit(
            &mut hits,
            RecordId(id.0.min(other.0)),
            scores::sum(
                score_if(id.0 <= other.0, score),
                score_if(other.0 <= id.0, more),
            ),
        );
        i += one_if(id.0 <= other.0);
        j += one_if(other.0 <= id.0);
    }
    let (_, left_rest) = left.split_at(i);
    let (_, right_rest) = right.split_at(j);
    append_hits(&mut hits, left_rest);
    append_hits(&mut hits, right_rest);
    Ok(hits)
}
