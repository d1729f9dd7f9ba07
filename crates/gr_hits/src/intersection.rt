// The hits of both of two lists.
ghost use Rattle.std.specs.Prelude.{◌≤◌, IfOk, length, min, take};
ghost use Rattle.gr_hits.specs.Hits.{AreHits, Scores, both_score};
ghost use Rattle.gr_hits.specs.Inside.Sums.{AreSums};

use crate::hits::HitList;
use crate::merge::{NO_HIT, is_far_shorter, one_if};
use crate::parts::parts_at;
use crate::room::append_scored;
use crate::scores::{both_score, sum};
use gr_base::{NoMemory, RecordId};
use std::alloc::Global;

/// The hits of both lists, with the sums of their scores. A list that is far shorter is walked and the other one is searched, so that the cost grows with the length of the shorter one, and with the logarithm of how often the longer one is longer.
pub fn both(alloc: Global, left: &HitList, right: &HitList) -> Result<HitList, NoMemory>
    ensures { IfOk result (Scores both_score left.now right.now) }
{
    let left = left.as_slice();
    let right = right.as_slice();
    let hits = if is_far_shorter(left, right) {
        both_by_walking(alloc, left, right)?
    } else if is_far_shorter(right, left) {
        both_by_walking(alloc, right, left)?
    } else {
        both_by_merging(alloc, left, right)?
    };
    Ok(HitList::from_vec(hits))
}

// The hits of both lists, of which the first is walked.
fn both_by_walking(
    alloc: Global,
    walked: &[(RecordId, u32)],
    searched: &[(RecordId, u32)],
) -> Result<Vec<(RecordId, u32)>, NoMemory>
    requires walked { AreHits walked.now }
    requires searched { AreHits searched.now }
    ensures { IfOk result (λ hits. AreSums both_score walked.now searched.now hits.items) }
{
    let mut hits = Vec::with_capacity(alloc, walked.len())?;
    let mut rest = searched;
    for hit in walked {
        let parts = parts_at(rest, hit.0);
        rest = parts.above;
        append_scored(&mut hits, hit.0, both_score(hit.1, parts.score));
    }
    Ok(hits)
}

// The hits of both lists, which are merged.
fn both_by_merging(
    alloc: Global,
    left: &[(RecordId, u32)],
    right: &[(RecordId, u32)],
) -> Result<Vec<(RecordId, u32)>, NoMemory>
    requires left { AreHits left.now }
    requires right { AreHits right.now }
    ensures { IfOk result (λ hits. AreSums both_score left.now right.now hits.items) }
{
    let mut hits = vec![in alloc; NO_HIT; left.len().min(right.len())]?;
    let made = merge_both(hits.as_mut_slice(), left, right);
    hits.truncate(made);
    Ok(hits)
}

// Writes the hits of both lists, and answers how many there are.
fn merge_both(
    hits: &mut [(RecordId, u32)],
    left: &[(RecordId, u32)],
    right: &[(RecordId, u32)],
) -> usize
    requires left { AreHits left.now }
    requires right { AreHits right.now }
    requires room { min (length left.now) (length right.now) ≤ length hits.old }
    ensures { AreSums both_score left.now right.now (take result hits.new) }
{
    let mut made = 0usize;
    let mut i = 0usize;
    let mut j = 0usize;
    'merge: while i < left.len() && j < right.len() {
        let (id, score) = left[i];
        let (other, more) = right[j];
        hits[made] = (id, sum(score, more));
        made += one_if(id.0 == other.0);
        i += one_if(id.0 <= other.0);
        j += one_if(other.0 <= id.0);
    }
    made
}
