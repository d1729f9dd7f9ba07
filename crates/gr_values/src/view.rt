// What a record keeps in a column, lent.
ghost use Rattle.std.specs.Prelude.{◌≡◌, IfOk};
ghost use Rattle.gr_values.specs.View.{shown};

use crate::Cell;
use gr_base::{Bytes, ListOf, NoMemory, RecordId};
use std::alloc::Global;

/// A cell, lent: what is small by value, and the rest as it is kept.
#[derive(Clone, Copy)]
pub enum CellView<'a> {
    /// `true` or `false`.
    Bool(bool),
    /// A whole number.
    Int(i128),
    /// A text, which is UTF-8.
    Text(&'a Bytes),
    /// The id of the record that is referred to, or 0.
    Ref(RecordId),
    /// The ids of the records that are referred to.
    RefList(&'a [RecordId]),
    /// Whole numbers.
    IntList(&'a [i128]),
    /// Texts, which are UTF-8.
    TextList(&'a [Bytes]),
}

impl CellView<'_> {
    /// The cell itself. Texts share their bytes with it, and lists are copied.
    pub fn to_cell(&self, alloc: Global) -> Result<Cell, NoMemory>
        ensures { IfOk result (λ cell. cell ≡ shown self.now) }
    {
        Ok(match self {
            CellView::Bool(truth) => Cell::Bool(*truth),
            CellView::Int(number) => Cell::Int(*number),
            CellView::Text(text) => Cell::Text(text.try_clone()?),
            CellView::Ref(id) => Cell::Ref(*id),
            CellView::RefList(ids) => Cell::RefList(ListOf::from_vec(Vec::from_slice(alloc, ids)?)),
            CellView::IntList(numbers) => {
                Cell::IntList(ListOf::from_vec(Vec::from_slice(alloc, numbers)?))
            }
            CellView::TextList(texts) => Cell::TextList(shared_texts(alloc, texts)?),
        })
    }
}

impl Cell {
    /// The cell, lent.
    pub fn view(&self) -> CellView<'_>
        ensures { shown result ≡ self.now }
    {
        match self {
            Cell::Bool(truth) => CellView::Bool(*truth),
            Cell::Int(number) => CellView::Int(*number),
            Cell::Text(text) => CellView::Text(text),
            Cell::Ref(id) => CellView::Ref(*id),
            Cell::RefList(ids) => CellView::RefList(ids.as_slice()),
            Cell::IntList(numbers) => CellView::IntList(numbers.as_slice()),
            Cell::TextList(texts) => CellView::TextList(texts.as_slice()),
        }
    }
}

// The same texts, each with one more owner.
fn shared_texts(alloc: Global, texts: &[Bytes]) -> Result<ListOf<Bytes>, NoMemory>
    ensures { IfOk result (λ copy. copy ≡ texts.now) }
{
    let mut copies = Vec::with_capacity(alloc, texts.len())?;
    for text in texts {
        copies.push(text.try_clone()?)?;
    }
    Ok(ListOf::from_vec(copies))
}
