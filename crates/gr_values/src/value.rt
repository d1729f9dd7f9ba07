// Keys, and values as they are kept and as they are given.
ghost use Rattle.std.specs.Prelude.{◌≡◌, IfOk};

use super::Shape;
use gr_base::{Bytes, Ids, Ints, ListOf, NoMemory, RecordId, Texts};
use std::alloc::Global;

/// The key of a record. Numbers are ordered as numbers, and texts by their bytes.
#[derive(PartialEq, Eq, PartialOrd, Ord, Drop)]
pub enum Key {
    /// A whole number.
    Number(i128),
    /// A text, which is UTF-8.
    Text(Bytes),
}

/// Keys, in order.
pub type Keys = ListOf<Key>;

impl Key {
    ghost use Rattle.gr_values.specs.Same.{is_same_key};
    ghost use Rattle.gr_values.specs.Values.{is_empty_text};

    /// Whether this is the empty text, which is no key and refers to nothing.
    pub fn is_empty_text(&self) -> bool
        ensures { result ≡ is_empty_text self.now }
    {
        match self {
            Key::Number(_) => false,
            Key::Text(text) => text.as_slice().is_empty(),
        }
    }

    /// Whether two keys are one: numbers by value, texts by their bytes.
    pub fn is_same(&self, other: &Key) -> bool
        ensures { result ≡ is_same_key self.now other.now }
    {
        match (self, other) {
            (Key::Number(one), Key::Number(other)) => one == other,
            (Key::Text(one), Key::Text(other)) => one == other,
            _ => false,
        }
    }

    /// The same key once more. It fails only where a text's count of owners is full.
    pub fn try_clone(&self) -> Result<Key, NoMemory>
        ensures { IfOk result (λ copy. copy ≡ self.now) }
    {
        match self {
            Key::Number(number) => Ok(Key::Number(*number)),
            Key::Text(text) => Ok(Key::Text(text.try_clone()?)),
        }
    }
}

/// A value as a record keeps it.
#[derive(Drop)]
pub enum Cell {
    /// `true` or `false`.
    Bool(bool),
    /// A whole number.
    Int(i128),
    /// A text, which is UTF-8.
    Text(Bytes),
    /// The id of the record that is referred to, or 0.
    Ref(RecordId),
    /// The ids of the records that are referred to.
    RefList(Ids),
    /// Whole numbers.
    IntList(Ints),
    /// Texts, which are UTF-8.
    TextList(Texts),
}

impl Cell {
    ghost use Rattle.gr_values.specs.Defaults.{default_of, list_default, plain_default};

    /// What a cell of this shape holds before a value is given.
    pub fn default_of(alloc: Global, shape: Shape) -> Result<Cell, NoMemory>
        ensures { IfOk result (λ cell. cell ≡ default_of shape) }
    {
        if shape.list {
            Ok(Cell::empty_list(alloc, shape))
        } else if shape.reference {
            Ok(Cell::Ref(RecordId(0)))
        } else {
            Cell::plain(alloc, shape)
        }
    }

    fn empty_list(alloc: Global, shape: Shape) -> Cell
        ensures { result ≡ list_default shape }
    {
        if shape.reference {
            Cell::RefList(ListOf::from_vec(Vec::new(alloc)))
        } else if shape.of.range().is_some() {
            Cell::IntList(ListOf::from_vec(Vec::new(alloc)))
        } else {
            Cell::TextList(ListOf::from_vec(Vec::new(alloc)))
        }
    }

    fn plain(alloc: Global, shape: Shape) -> Result<Cell, NoMemory>
        ensures { IfOk result (λ cell. cell ≡ plain_default shape.of) }
    {
        if shape.of.is_bool() {
            Ok(Cell::Bool(false))
        } else if shape.of.range().is_some() {
            Ok(Cell::Int(0))
        } else {
            Ok(Cell::Text(Bytes::from_vec(alloc, Vec::new(alloc))?))
        }
    }
}

/// A value as it is loaded and as it is shown: keys stand in place of ids.
#[derive(Drop)]
pub enum Given {
    /// `true` or `false`.
    Bool(bool),
    /// A whole number.
    Int(i128),
    /// A text, which is UTF-8.
    Text(Bytes),
    /// The key of the record that is referred to, where there is one.
    Ref(Option<Key>),
    /// The keys of the records that are referred to.
    RefList(Keys),
    /// Whole numbers.
    IntList(Ints),
    /// Texts, which are UTF-8.
    TextList(Texts),
}
