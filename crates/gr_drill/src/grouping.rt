// The groups of hits.
ghost use Rattle.std.specs.Prelude.{◌≡◌, IfOk};
ghost use Rattle.gr_drill.specs.Groups.{groups_of};

use crate::fields::count_record;
use crate::tally::{Tally, groups_in};
use gr_base::{NoMemory, RecordId};
use gr_expr::{Group, Rows};
use gr_values::Path;
use std::alloc::Global;

/// The groups of hits by the value at a path, in order of first appearance, as `drilldown` of the Groonga reference manual makes them.
/// It takes room for the groups alone, and for each value that counts the time of a look-up in a hash table.
pub fn groups<R: Rows>(
    alloc: Global,
    rows: &R,
    hits: &[(RecordId, u32)],
    key: &Path,
) -> Result<Vec<Group>, NoMemory>
    ensures { IfOk result (λ groups. groups.items ≡ groups_of (R.tables rows.now) key.now hits.now) }
{
    let mut tally = Tally::new(alloc);
    for hit in hits {
        count_record(&mut tally, rows, hit.0, key)?;
    }
    groups_in(alloc, &tally)
}
