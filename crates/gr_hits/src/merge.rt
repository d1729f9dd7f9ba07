// What merging two lists step by step stands on. A merge writes each hit where the next one goes, and then steps on by tests that are added and not branched on, since no processor foretells them.
ghost use Rattle.std.specs.Prelude.{◌≡◌, ◌+◌, ◌≤◌, ◌++◌, if◌then◌else◌, length, take};

use gr_base::RecordId;

/// What stands where no hit was made yet.
pub(crate) const NO_HIT: (RecordId, u32) = (RecordId(0), 0);

// So many times longer, a list is searched and not merged.
const FAR: usize = 16;

/// Whether a list is so much shorter than another that it is walked.
pub(crate) fn is_far_shorter(one: &[(RecordId, u32)], other: &[(RecordId, u32)]) -> bool {
    one.len() < other.len() / FAR
}

/// 1 where a test holds.
#[inline]
pub(crate) fn one_if(holds: bool) -> usize
    ensures { result ≡ (if holds then 1 else 0) }
{
    usize::from(holds)
}

/// A score where a test holds, and otherwise 0.
#[inline]
pub(crate) fn score_if(holds: bool, score: u32) -> u32
    ensures { result ≡ (if holds then score else 0) }
{
    if holds { score } else { 0 }
}

/// Writes hits from a place on, and answers the place after them.
pub(crate) fn write_hits(
    made: &mut [(RecordId, u32)],
    from: usize,
    more: &[(RecordId, u32)],
) -> usize
    requires { from + length more.now ≤ length made.old }
    ensures place { result ≡ from + length more.now }
    ensures exact { take result made.new ≡ take from made.old ++ more.now }
{
    let mut at = from;
    'writes: for hit in more {
        made[at] = *hit;
        at += 1;
    }
    at
}
