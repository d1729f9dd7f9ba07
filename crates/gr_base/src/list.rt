// Lists that contracts see as lists of what their elements mean.
ghost use Rattle.std.specs.Prelude.{◌≡◌};

use super::{Bytes, RecordId};
use std::marker::Model;

/// A list made once, of which contracts see the elements in order.
#[derive(Drop)]
pub struct ListOf<T> {
    items: Vec<T>,
}

/// A list of record ids.
pub type Ids = ListOf<RecordId>;

/// A list of whole numbers.
pub type Ints = ListOf<i128>;

/// A list of texts.
pub type Texts = ListOf<Bytes>;

impl<T> Model for ListOf<T> {
    ghost use Rattle.std.specs.Prelude.{List};
    ghost use Rattle.std.specs.Coded.{coded_list};

    ghost Value = { List T };

    ghost coded = { coded_list T.code };

    ghost view = { λ list. list.items.items };
}

impl<T> ListOf<T> {
    /// The list of a vector's elements; takes no memory.
    pub fn from_vec(items: Vec<T>) -> ListOf<T>
        ensures { result ≡ items.items }
    {
        ListOf { items }
    }

    /// The elements as a vector; takes no memory.
    pub fn into_vec(self) -> Vec<T>
        ensures { result.items ≡ self }
    {
        self.items
    }

    /// The elements, lent.
    pub fn as_slice(&self) -> &[T]
        ensures { result.now ≡ self.now }
    {
        self.items.as_slice()
    }
}
