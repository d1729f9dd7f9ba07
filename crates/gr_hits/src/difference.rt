// The hits of one list that another lacks.
ghost use Rattle.std.specs.Prelude.{◌≤◌, IfOk, length, take};
ghost use Rattle.gr_hits.specs.Hits.{AreHits, Scores, without_score};
ghost use Rattle.gr_hits.specs.Inside.Sums.{AreSums};

use crate::hits::HitList;
use crate::merge::{NO_HIT, is_far_shorter, one_if, write_hits};
use crate::parts::parts_at;
use crate::room::{append_hits, append_scored};
use crate::scores::without_score;
use gr_base::{NoMemory, RecordId};
use std::alloc::Global;

/// The hits of the left list that are none of the right one, with their scores. A list that is far shorter is walked and the other one is searched.
pub fn without(alloc: Global, left: &HitList, right: &HitList) -> Result<HitList, NoMemory>
    ensures { IfOk result (Scores without_score left.now right.now) }
{
    let left = left.as_slice();
    let right = right.as_slice();
    let hits = if is_far_shorter(left, right) {
        kept_by_walking(alloc, left, right)?
    } else if is_far_shorter(right, left) {
        kept_between(alloc, left, right)?
    } else {
        kept_by_merging(alloc, left, right)?
    };
    Ok(HitList::from_vec(hits))
}

// The left hits that the right list lacks, where the left list is walked.
fn kept_by_walking(
    alloc: Global,
    left: &[(RecordId, u32)],
    right: &[(RecordId, u32)],
) -> Result<Vec<(RecordId, u32)>, NoMemory>
    requires left { AreHits left.now }
    requires right { AreHits right.now }
    ensures { IfOk result (λ hits. AreSums without_score left.now right.now hits.items) }
{
    let mut hits = Vec::with_capacity(alloc, left.len())?;
    let mut rest = right;
    for hit in left {
        let parts = parts_at(rest, hit.0);
        rest = parts.above;
        append_scored(&mut hits, hit.0, without_score(hit.1, parts.score));
    }
    Ok(hits)
}

// The left hits that the right list lacks, where the right list is walked.
fn kept_between(
    alloc: Global,
    left: &[(RecordId, u32)],
    right: &[(RecordId, u32)],
) -> Result<Vec<(RecordId, u32)>, NoMemory>
    requires left { AreHits left.now }
    requires right { AreHits right.now }
    ensures { IfOk result (λ hits. AreSums without_score left.now right.now hits.items) }
{
    let mut hits = Vec::with_capacity(alloc, left.len())?;
    let mut rest = left;
    for hit in right {
        let parts = parts_at(rest, hit.0);
        rest = parts.above;
        append_hits(&mut hits, parts.below);
    }
    append_hits(&mut hits, rest);
    Ok(hits)
}

// The left hits that the right list lacks, where the lists are merged.
fn kept_by_merging(
    alloc: Global,
    left: &[(RecordId, u32)],
    right: &[(RecordId, u32)],
) -> Result<Vec<(RecordId, u32)>, NoMemory>
    requires left { AreHits left.now }
    requires right { AreHits right.now }
    ensures { IfOk result (λ hits. AreSums without_score left.now right.now hits.items) }
{
    let mut hits = vec![in alloc; NO_HIT; left.len()]?;
    let made = merge_without(hits.as_mut_slice(), left, right);
    hits.truncate(made);
    Ok(hits)
}

// Writes the left hits that the right list lacks, and answers how many there are.
fn merge_without(
    hits: &mut [(RecordId, u32)],
    left: &[(RecordId, u32)],
    right: &[(RecordId, u32)],
) -> usize
    requires left { AreHits left.now }
    requires right { AreHits right.now }
    requires room { length left.now ≤ length hits.old }
    ensures { AreSums without_score left.now right.now (take result hits.new) }
{
    let mut made = 0usize;
    let mut i = 0usize;
    let mut j = 0usize;
    'merge: while i < left.len() && j < right.len() {
        let (id, score) = left[i];
        let (other, _) = right[j];
        hits[made] = (id, score);
        made += one_if(id.0 < other.0);
        i += one_if(id.0 <= other.0);
        j += one_if(other.0 <= id.0);
    }
    let (_, rest) = left.split_at(i);
    write_hits(hits, made, rest)
}
