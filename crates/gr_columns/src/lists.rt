// Lists in a cell: an empty one takes no memory, and another stands behind a shared count.
ghost use Rattle.std.specs.Prelude.{◌≡◌, IfOk, []};

use crate::again::Again;
use gr_base::{ListOf, NoMemory};
use std::alloc::Global;
use std::marker::Model;
use std::sync::Arc;

/// A list that never changes. A copy is one more owner of the same elements.
#[derive(Drop)]
pub(crate) struct SharedList<T> {
    items: Option<Arc<ListOf<T>>>,
}

impl<T> Model for SharedList<T> {
    ghost use Rattle.std.specs.Prelude.{List};
    ghost use Rattle.std.specs.Coded.{coded_list};
    ghost use Rattle.gr_columns.specs.Inside.Lists.{shared_items};

    ghost Value = { List T };

    ghost coded = { coded_list T.code };

    ghost view = { λ list. shared_items list.items };
}

impl<T> SharedList<T> {
    /// No elements; takes no memory.
    pub(crate) fn empty() -> SharedList<T>
        ensures { result ≡ [] }
    {
        SharedList { items: None }
    }

    /// The elements, lent.
    pub(crate) fn as_slice(&self) -> &[T]
        ensures { result.now ≡ self.now }
    {
        match &self.items {
            Some(list) => list.as_slice(),
            None => &[],
        }
    }
}

impl<T: Drop> SharedList<T> {
    /// The elements of a list, which it takes over.
    pub(crate) fn from_list(alloc: Global, list: ListOf<T>) -> Result<SharedList<T>, NoMemory>
        ensures { IfOk result (λ shared. shared ≡ list) }
    {
        if list.as_slice().is_empty() {
            return Ok(SharedList::empty());
        }
        let items = Some(Arc::new(alloc, list)?);
        Ok(SharedList { items })
    }
}

impl<T: Drop> Again for SharedList<T> {
    fn again(&self) -> Result<SharedList<T>, NoMemory> {
        match &self.items {
            Some(list) => {
                let items = Some(Arc::try_clone(list)?);
                Ok(SharedList { items })
            }
            None => Ok(SharedList::empty()),
        }
    }
}
