// Lists of owners: what one owns, and all taken once more.
ghost use Rattle.std.specs.Prelude.{◌≡◌, IfOk, map, length, vec_len, slice_get};
ghost use Rattle.std.specs.Option.{option_copied};
ghost use Rattle.std.specs.Arc.{arc_value};

use super::leaf::ROOM;
use gr_base::NoMemory;
use std::alloc::Global;
use std::sync::Arc;

/// One more owner of each, with room for as many as a leaf or a node holds.
pub(crate) fn shared<X: Drop>(alloc: Global, items: &[Arc<X>]) -> Result<Vec<Arc<X>>, NoMemory>
    ensures same { IfOk result (λ copy. map arc_value copy.items ≡ map arc_value items.now) }
    ensures len { IfOk result (λ copy. vec_len copy ≡ length items.now) }
{
    let mut copy = Vec::with_capacity(alloc, ROOM)?;
    for item in items {
        copy.push(Arc::try_clone(item)?)?;
    }
    Ok(copy)
}

/// What the owner at `i` owns, if it is there.
pub(crate) fn owned<X>(items: &[Arc<X>], i: u64) -> Option<&X>
    ensures { option_copied result ≡ slice_get (map arc_value items.now) i }
{
    let item = items.get(i as usize)?;
    Some(&**item)
}
