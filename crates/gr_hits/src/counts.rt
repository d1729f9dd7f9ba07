// Hits that are counted.
ghost use Rattle.std.specs.Prelude.{◌≡◌, ◌+◌, ◌<◌, ◌≤◌, true, vec_len};
ghost use Rattle.std.specs.Vec.{vec_capacity};
ghost use Rattle.gr_hits.specs.Hits.{AreHits};
ghost use Rattle.gr_hits.specs.Inside.Counts.{AreUpTo, Counts};

use crate::room::append_hit;
use crate::scores::sum;
use gr_base::RecordId;

/// Counts one more for a record that no hit is after, if this is one more.
#[inline]
pub(crate) fn count_if(hits: &mut Vec<(RecordId, u32)>, id: RecordId, more: bool)
    requires sound { AreHits hits.old.items }
    requires order { AreUpTo id hits.old.items }
    requires room { vec_len hits.old < vec_capacity hits.old }
    ensures sound { AreHits hits.new.items }
    ensures order { AreUpTo id hits.new.items }
    ensures exact { Counts id more hits.old.items hits.new.items }
    ensures len { vec_len hits.new ≤ vec_len hits.old + 1 }
    ensures room { vec_capacity hits.old ≤ vec_capacity hits.new }
{
    if more {
        count_one(hits, id);
    }
}

// Counts one more: the last hit is raised if it is this record's, and otherwise a hit is appended.
fn count_one(hits: &mut Vec<(RecordId, u32)>, id: RecordId)
    requires sound { AreHits hits.old.items }
    requires order { AreUpTo id hits.old.items }
    requires room { vec_len hits.old < vec_capacity hits.old }
    ensures sound { AreHits hits.new.items }
    ensures order { AreUpTo id hits.new.items }
    ensures exact { Counts id true hits.old.items hits.new.items }
    ensures len { vec_len hits.new ≤ vec_len hits.old + 1 }
    ensures room { vec_capacity hits.old ≤ vec_capacity hits.new }
{
    match hits.pop() {
        Some(last) if last.0.0 == id.0 => append_hit(hits, id, sum(last.1, 1)),
        Some(last) => {
            append_hit(hits, last.0, last.1);
            append_hit(hits, id, 1);
        }
        None => append_hit(hits, id, 1),
    }
}
