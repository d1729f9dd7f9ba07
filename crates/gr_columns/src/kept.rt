// The cells of a column by kind: what a kind keeps, and how a cell goes in and is lent.
ghost use Rattle.std.specs.Prelude.{◌≡◌, [], pos, IfOk, OnOk, OnErr};
ghost use Rattle.gr_values.specs.Defaults.{list_default, plain_default};
ghost use Rattle.gr_values.specs.View.{shown};
ghost use Rattle.gr_columns.specs.Inside.Holds.{HoldsIntList, HoldsRef, HoldsRefList, HoldsSigned, HoldsText, HoldsTextList, HoldsTruth, HoldsUnsigned};
ghost use Rattle.gr_columns.specs.Inside.Kept.{blank_cell, cells_of, kept_at, HasLanes, IsNewKept, SetsKept, Takes};

use crate::lists::SharedList;
use crate::places::Places;
use crate::truths::Truths;
use gr_base::{Bytes, Ids, Ints, NoMemory, RecordId, Texts};
use gr_values::{Cell, CellView, DataType, Shape};
use std::alloc::Global;

/// The cells of a column.
#[derive(Drop)]
pub(crate) enum Kept {
    /// Whole numbers of all types but `UInt64`.
    Signed(Places<i64>),
    /// Whole numbers of the type `UInt64`.
    Unsigned(Places<u64>),
    /// Truth values.
    Truths(Truths),
    /// Texts.
    Texts(Places<Bytes>),
    /// References.
    Refs(Places<RecordId>),
    /// Lists of references.
    RefLists(Places<SharedList<RecordId>>),
    /// Lists of whole numbers.
    IntLists(Places<SharedList<i128>>),
    /// Lists of texts.
    TextLists(Places<SharedList<Bytes>>),
}

impl Kept {
    /// What a column of this shape keeps before a cell is set.
    pub(crate) fn new(alloc: Global, shape: Shape) -> Result<Kept, NoMemory>
        ensures { IfOk result (IsNewKept shape) }
    {
        if shape.list {
            Kept::lists(alloc, shape)
        } else if shape.reference {
            Ok(Kept::Refs(Places::new(alloc, RecordId(0))?))
        } else {
            Kept::plain(alloc, shape.of)
        }
    }

    fn lists(alloc: Global, shape: Shape) -> Result<Kept, NoMemory>
        ensures none { IfOk result (λ made. cells_of made ≡ []) }
        ensures blank { IfOk result (λ made. blank_cell made ≡ list_default shape) }
        ensures lanes { IfOk result (HasLanes shape.of) }
    {
        if shape.reference {
            Ok(Kept::RefLists(Places::new(alloc, SharedList::empty())?))
        } else if shape.of.range().is_some() {
            Ok(Kept::IntLists(Places::new(alloc, SharedList::empty())?))
        } else {
            Ok(Kept::TextLists(Places::new(alloc, SharedList::empty())?))
        }
    }

    fn plain(alloc: Global, of: DataType) -> Result<Kept, NoMemory>
        ensures none { IfOk result (λ made. cells_of made ≡ []) }
        ensures blank { IfOk result (λ made. blank_cell made ≡ plain_default of) }
        ensures lanes { IfOk result (HasLanes of) }
    {
        match of {
            DataType::Bool => Ok(Kept::Truths(Truths::new(alloc)?)),
            DataType::UInt64 => Ok(Kept::Unsigned(Places::new(alloc, 0)?)),
            DataType::ShortText | DataType::Text | DataType::LongText => {
                let empty = Bytes::from_slice(alloc, &[])?;
                Ok(Kept::Texts(Places::new(alloc, empty)?))
            }
            _ => Ok(Kept::Signed(Places::new(alloc, 0)?)),
        }
    }

    /// The cell at a place, lent.
    pub(crate) fn get(&self, i: u32) -> CellView<'_>
        ensures { shown result ≡ kept_at self.now i }
    {
        match self {
            Kept::Signed(numbers) => CellView::Int(i128::from(*numbers.get(i))),
            Kept::Unsigned(numbers) => CellView::Int(i128::from(*numbers.get(i))),
            Kept::Truths(truths) => CellView::Bool(truths.get(i)),
            Kept::Texts(texts) => CellView::Text(texts.get(i)),
            Kept::Refs(ids) => CellView::Ref(*ids.get(i)),
            Kept::RefLists(lists) => CellView::RefList(lists.get(i).as_slice()),
            Kept::IntLists(lists) => CellView::IntList(lists.get(i).as_slice()),
            Kept::TextLists(lists) => CellView::TextList(lists.get(i).as_slice()),
        }
    }

    /// Puts a cell of the kind at a place.
    pub(crate) fn set(&mut self, alloc: Global, i: u32, cell: Cell) -> Result<(), NoMemory>
        requires { Takes self.old cell }
        ensures ok { OnOk result (SetsKept self.old self.new i cell) }
        ensures err { OnErr result (self.new ≡ self.old) }
    {
        match self {
            Kept::Signed(numbers) => numbers.set(alloc, i, signed_of(&cell)),
            Kept::Unsigned(numbers) => numbers.set(alloc, i, unsigned_of(&cell)),
            Kept::Truths(truths) => truths.set(alloc, i, truth_of(&cell)),
            Kept::Texts(texts) => texts.set(alloc, i, text_of(cell)),
            Kept::Refs(ids) => ids.set(alloc, i, id_of(&cell)),
            Kept::RefLists(lists) => {
                lists.set(alloc, i, SharedList::from_list(alloc, ids_of(cell))?)
            }
            Kept::IntLists(lists) => {
                lists.set(alloc, i, SharedList::from_list(alloc, numbers_of(cell))?)
            }
            Kept::TextLists(lists) => {
                lists.set(alloc, i, SharedList::from_list(alloc, texts_of(cell))?)
            }
        }
    }

    /// The same cells once more, which share everything.
    pub(crate) fn try_clone(&self) -> Result<Kept, NoMemory>
        ensures { IfOk result (λ copy. copy ≡ self.now) }
    {
        Ok(match self {
            Kept::Signed(numbers) => Kept::Signed(numbers.try_clone()?),
            Kept::Unsigned(numbers) => Kept::Unsigned(numbers.try_clone()?),
            Kept::Truths(truths) => Kept::Truths(truths.try_clone()?),
            Kept::Texts(texts) => Kept::Texts(texts.try_clone()?),
            Kept::Refs(ids) => Kept::Refs(ids.try_clone()?),
            Kept::RefLists(lists) => Kept::RefLists(lists.try_clone()?),
            Kept::IntLists(lists) => Kept::IntLists(lists.try_clone()?),
            Kept::TextLists(lists) => Kept::TextLists(lists.try_clone()?),
        })
    }
}

/// The number of a cell that fits 64 bits with a sign.
fn signed_of(cell: &Cell) -> i64
    requires { HoldsSigned cell.now }
    ensures { cell.now ≡ Cell.Int result }
{
    match cell {
        Cell::Int(number) => *number as i64,
        _ => unreachable!(),
    }
}

/// The number of a cell that fits 64 bits from 0.
fn unsigned_of(cell: &Cell) -> u64
    requires { HoldsUnsigned cell.now }
    ensures { cell.now ≡ Cell.Int (pos result) }
{
    match cell {
        Cell::Int(number) => *number as u64,
        _ => unreachable!(),
    }
}

/// The truth value of a cell.
fn truth_of(cell: &Cell) -> bool
    requires { HoldsTruth cell.now }
    ensures { cell.now ≡ Cell.Bool result }
{
    match cell {
        Cell::Bool(truth) => *truth,
        _ => unreachable!(),
    }
}

/// The text of a cell.
fn text_of(cell: Cell) -> Bytes
    requires { HoldsText cell }
    ensures { cell ≡ Cell.Text result }
{
    match cell {
        Cell::Text(text) => text,
        _ => unreachable!(),
    }
}

/// The id of a cell.
fn id_of(cell: &Cell) -> RecordId
    requires { HoldsRef cell.now }
    ensures { cell.now ≡ Cell.Ref result }
{
    match cell {
        Cell::Ref(id) => *id,
        _ => unreachable!(),
    }
}

/// The ids of a cell.
fn ids_of(cell: Cell) -> Ids
    requires { HoldsRefList cell }
    ensures { cell ≡ Cell.RefList result }
{
    match cell {
        Cell::RefList(ids) => ids,
        _ => unreachable!(),
    }
}

/// The numbers of a cell.
fn numbers_of(cell: Cell) -> Ints
    requires { HoldsIntList cell }
    ensures { cell ≡ Cell.IntList result }
{
    match cell {
        Cell::IntList(numbers) => numbers,
        _ => unreachable!(),
    }
}

/// The texts of a cell.
fn texts_of(cell: Cell) -> Texts
    requires { HoldsTextList cell }
    ensures { cell ≡ Cell.TextList result }
{
    match cell {
        Cell::TextList(texts) => texts,
        _ => unreachable!(),
    }
}
