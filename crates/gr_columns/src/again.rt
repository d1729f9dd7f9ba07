// Values that can be taken once more for no more than a count.
ghost use Rattle.std.specs.Prelude.{◌≡◌, IfOk};

use gr_base::{Bytes, NoMemory, RecordId};
use gr_values::Key;
use std::alloc::Global;

/// A value of a block that may be copied: it is small, or shares what is large. It fails only where a count of owners is full.
pub trait Again: Sized {
    /// The value once more.
    fn again(&self) -> Result<Self, NoMemory>
        ensures { IfOk result (λ copy. copy ≡ self.now) };
}

impl Again for i64 {
    fn again(&self) -> Result<i64, NoMemory> {
        Ok(*self)
    }
}

impl Again for u64 {
    fn again(&self) -> Result<u64, NoMemory> {
        Ok(*self)
    }
}

impl Again for RecordId {
    fn again(&self) -> Result<RecordId, NoMemory> {
        Ok(*self)
    }
}

impl Again for Bytes {
    fn again(&self) -> Result<Bytes, NoMemory> {
        self.try_clone()
    }
}

impl Again for Key {
    fn again(&self) -> Result<Key, NoMemory> {
        self.try_clone()
    }
}

impl<T: Again> Again for Option<T> {
    fn again(&self) -> Result<Option<T>, NoMemory> {
        match self {
            Some(value) => Ok(Some(value.again()?)),
            None => Ok(None),
        }
    }
}

/// Each of the values once more.
pub(crate) fn each_again<T: Again + Drop>(alloc: Global, values: &[T]) -> Result<Vec<T>, NoMemory>
    ensures { IfOk result (λ copies. copies.items ≡ values.now) }
{
    let mut copies = Vec::with_capacity(alloc, values.len())?;
    for value in values {
        copies.push(value.again()?)?;
    }
    Ok(copies)
}
