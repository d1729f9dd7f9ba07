// Ids in ascending order, each once.
ghost use Rattle.std.specs.Prelude.{◌≡◌, IfOk, map};
ghost use Rattle.gr_key_tree.specs.Inside.Held.{AreInOrder};

use gr_base::{Ids, ListOf, NoMemory, RecordId};
use std::alloc::Global;

/// The ids of these numbers in ascending order, each once.
pub(crate) fn in_order(alloc: Global, mut numbers: Vec<u32>) -> Result<Ids, NoMemory>
    ensures { IfOk result (λ ids. AreInOrder numbers.items ids) }
{
    numbers.sort_unstable();
    numbers.dedup();
    ids_of(alloc, numbers.as_slice())
}

/// Numbers as ids.
fn ids_of(alloc: Global, numbers: &[u32]) -> Result<Ids, NoMemory>
    ensures { IfOk result (λ ids. map (λ id. id.0) ids ≡ numbers.now) }
{
    let mut ids = Vec::with_capacity(alloc, numbers.len())?;
    for number in numbers {
        ids.push(RecordId(*number))?;
    }
    Ok(ListOf::from_vec(ids))
}
