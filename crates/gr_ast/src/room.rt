// Lists of parts that are read one by one.
ghost use Rattle.std.specs.Prelude.{◌≡◌, [], IfOk};

use gr_base::NoMemory;
use sqlite_items::Items;
use std::alloc::Global;

/// An empty list with room for one part. Most chains have one part behind their first, and a vector that grows from nothing takes room for four.
pub fn room_for_one<T>(alloc: Global) -> Result<Items<T>, NoMemory>
    ensures { IfOk result (λ items. items ≡ []) }
{
    Ok(Items::from_vec(Vec::with_capacity(alloc, 1)?))
}
