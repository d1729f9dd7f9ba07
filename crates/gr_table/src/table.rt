// The records of one table.
ghost use Rattle.std.specs.Prelude.{◌≡◌, ◌≢◌, ◌≤◌, ◌<◌, ◌++◌, ℕ, OnErr, ◌∷◌, [], true, IfOk, IfSome, MatchOption, OnOk, Some, None, is_some, length, map, slice_get};
ghost use Rattle.std.specs.Option.{option_and_then, option_copied, option_flatten, option_map};
ghost use Rattle.std.specs.FinMap.{get};
ghost use Rattle.gr_values.specs.Fits.{IsCellOf};
ghost use Rattle.gr_columns.specs.Places.{value_at};
ghost use Rattle.gr_db.specs.Db.{changed_in, with_cell, with_column_of, without};
ghost use Rattle.gr_expr.specs.Tables.{id_in, record_in};
ghost use Rattle.gr_schema.specs.Sound.{has_keys};
ghost use Rattle.gr_table.specs.Masks.{AreWithPrefix, IsRecordMask, is_whole_column};
ghost use Rattle.gr_table.specs.Sound.{IsTable};
ghost use Rattle.gr_table.specs.Inside.Bytes.{key_bytes};
ghost use Rattle.gr_table.specs.Inside.Puts.{AddsRecord, LosesKey, PutsKey};
ghost use Rattle.gr_table.specs.Inside.Trees.{map_of};
ghost use Rattle.gr_table.specs.Table.{AnswersWant, IsKeyIn, id_found, no_records};
ghost use Rattle.gr_values.specs.Defaults.{default_of};
ghost use Rattle.gr_values.specs.Types.{IsShape, is_key_type};
ghost use Rattle.gr_values.specs.View.{shown};
ghost use Rattle.gr_values.specs.declared.data_type.DataType.{DataType};

use crate::Wanted;
use crate::key_tree::KeyTree;
use gr_base::{Cmp, ColumnNo, Ids, NoMemory, RecordId};
use gr_columns::{Column, Places, Truths};
use gr_schema::TableKind;
use gr_values::{Cell, CellView, DataType, Key, Shape};
use std::alloc::Global;
use std::marker::Model;

/// The records of one table by their ids, which count from 1. A changed copy shares with the old one all but the blocks that changed and the paths
/// to them; the old one stays as it was. After a call that fails for want of memory nothing is said of the table that it was to change.
#[derive(Drop)]
pub struct TableRecords {
    key: Option<DataType>,
    given: u32,
    alive: Truths,
    tree: KeyTree,
    keys: Places<Option<Key>>,
    columns: Vec<Option<Column>>,
}

impl Model for TableRecords {
    ghost use Rattle.gr_table.specs.Inside.Held.{IsHeld};
    ghost use Rattle.gr_table.specs.Inside.Seen.{records_seen, shapes_in};
    ghost use Rattle.gr_table.specs.Inside.Trees.{map_of};
    ghost use Rattle.gr_table.specs.Table.{TableOf};

    ghost Value = { TableOf };

    ghost view = { λ table. record { key = table.key; shapes = shapes_in table.columns.items; records = records_seen table.given table.alive table.keys table.columns.items } };

    ghost invariant = { λ table. IsHeld table.key table.given table.alive (map_of table.tree) table.keys table.columns.items };
}

impl TableRecords {
    /// A table without columns and records.
    pub fn new(
        alloc: Global,
        kind: TableKind,
        key: Option<DataType>,
    ) -> Result<TableRecords, NoMemory>
        requires keys { is_some key ≡ has_keys kind }
        requires type_ { IfSome key (λ type. is_key_type type ≡ true) }
        ensures { IfOk result (λ made. made ≡ no_records key) }
    {
        let alive = Truths::new(alloc)?;
        let tree = KeyTree::new(kind);
        let keys = Places::new(alloc, None)?;
        let columns = Vec::new(alloc);
        Ok(TableRecords {
            key,
            given: 0,
            alive,
            tree,
            keys,
            columns,
        })
    }

    /// The same table once more, which shares everything, in the time of its columns.
    pub fn try_clone(&self) -> Result<TableRecords, NoMemory>
        ensures { IfOk result (λ copy. copy ≡ self.now) }
    {
        let alive = self.alive.try_clone()?;
        let tree = self.tree.try_clone()?;
        let keys = self.keys.try_clone()?;
        let columns = each_clone(*self.columns.allocator(), self.columns.as_slice())?;
        Ok(TableRecords {
            key: self.key,
            given: self.given,
            alive,
            tree,
            keys,
            columns,
        })
    }

    /// How many ids were given, deleted records' ids among them.
    pub fn given(&self) -> u32
        ensures exact { result ≡ length self.now.records }
        ensures sound { IsTable self.now }
    {
        self.given
    }

    /// Whether a record of this id is there.
    pub fn is_alive(&self, id: RecordId) -> bool
        ensures { result ≡ is_some (record_in self.now.records id.0) }
    {
        self.alive.get(id.0)
    }

    /// The key of a record, where the table has keys and the record is there.
    pub fn key(&self, id: RecordId) -> Option<&Key>
        ensures { option_copied result ≡ option_and_then (λ found. found.key) (record_in self.now.records id.0) }
    {
        if self.alive.get(id.0) {
            self.keys.get(id.0).as_ref()
        } else {
            None
        }
    }

    /// What a record holds in a column, lent, where the record is there and the column holds data.
    pub fn cell(&self, id: RecordId, column: ColumnNo) -> Option<CellView<'_>>
        ensures { option_map shown result ≡ option_and_then (λ found. option_flatten (slice_get found.cells column.0)) (record_in self.now.records id.0) }
    {
        if !self.alive.get(id.0) {
            return None;
        }
        let held = column_of(self.columns.as_slice(), column)?;
        Some(held.get(id))
    }

    /// The id of the record that has this key. A key that is none of the table's type is not found.
    pub fn find(&self, key: &Key) -> Option<RecordId>
        ensures { result ≡ id_in self.now.records key.now }
    {
        let id = self.tree.find(key)?;
        match self.keys.get(id.0) {
            Some(other) if key.is_same(other) => Some(id),
            _ => None,
        }
    }

    /// The id of the record that has this key; otherwise, and always without a key, a new record of the next id with default cells, where the limit
    /// lets one more be given. A deleted record's id is not given again.
    pub fn want(&mut self, alloc: Global, key: Option<&Key>, limit: u32) -> Result<Wanted, NoMemory>
        requires room { length self.old.records ≤ limit }
        requires keyed { IsKeyIn self.old.key (option_copied key) }
        ensures { AnswersWant limit self.old self.new (option_copied key.entry) result }
    {
        if let Some(id) = self.found(key) {
            return Ok(Wanted::Found(id));
        }
        if self.given >= limit {
            return Ok(Wanted::Full);
        }
        let id = self.add(alloc, key)?;
        Ok(Wanted::Added(id))
    }

    // The id of the record that has this key, where a key is given.
    fn found(&self, key: Option<&Key>) -> Option<RecordId>
        ensures { result ≡ id_found self.now (option_copied key.entry) }
    {
        match key {
            Some(key) => self.find(key),
            None => None,
        }
    }

    /// A new record of the next id, with default cells. Its key must not be there.
    fn add(&mut self, alloc: Global, key: Option<&Key>) -> Result<RecordId, NoMemory>
        requires room { length self.old.records < u32.MAX }
        requires keyed { IsKeyIn self.old.key (option_copied key) }
        requires missing { id_found self.old (option_copied key) ≡ None }
        ensures { IfOk result (AddsRecord self.old self.new (option_copied key.entry)) }
    {
        let id = RecordId(self.given + 1);
        let mut alive = self.alive.try_clone()?;
        alive.set(alloc, id.0, true)?;
        put_key(&mut self.keys, &mut self.tree, alloc, key, id)?;
        self.alive = alive;
        self.given = id.0;
        Ok(id)
    }

    /// Puts another cell into a column of a record that is there. One block is copied, and what has other owners on the way to it.
    pub fn set(
        &mut self,
        alloc: Global,
        id: RecordId,
        column: ColumnNo,
        cell: Cell,
    ) -> Result<(), NoMemory>
        requires alive { is_some (record_in self.old.records id.0) ≡ true }
        requires fits { MatchOption (option_flatten (slice_get self.old.shapes column.0)) ⊥ (λ shape. IsCellOf shape cell) }
        ensures { OnOk result (self.new ≡ record self.old { records = changed_in id.0 (with_cell column cell) self.old.records }) }
    {
        match &mut self.columns[column.0 as usize] {
            Some(held) => held.set_cell(alloc, id, cell),
            None => unreachable!(),
        }
    }

    /// Deletes a record that is there. Its id is not given again, and its key is free.
    pub fn remove(&mut self, alloc: Global, id: RecordId) -> Result<(), NoMemory>
        requires { is_some (record_in self.old.records id.0) ≡ true }
        ensures { OnOk result (self.new ≡ record self.old { records = without id.0 self.old.records }) }
    {
        let tree = tree_without(&self.tree, alloc, self.keys.get(id.0))?;
        self.alive.set(alloc, id.0, false)?;
        self.tree = tree;
        Ok(())
    }

    /// Adds a column, in which each record has the default of the shape; without a shape an index, in which records hold nothing. It takes no
    /// time and memory by records.
    pub fn add_column(&mut self, alloc: Global, shape: Option<Shape>) -> Result<(), NoMemory>
        requires { IfSome shape IsShape }
        ensures { OnOk result (self.new ≡ record self.old {
          shapes = self.old.shapes ++ shape ∷ [];
          records = with_column_of (option_map default_of shape) self.old.records;
        }) }
    {
        let column = new_column(alloc, shape)?;
        self.columns.push(column)?;
        Ok(())
    }

    /// The ids of all records whose key begins with the prefix, each once, in ascending order. Where keys are found by a hash, each key is looked at.
    pub fn prefix(&self, alloc: Global, prefix: &[u8]) -> Result<Ids, NoMemory>
        requires { self.now.key ≡ Some DataType.ShortText }
        ensures { IfOk result (λ ids. AreWithPrefix self.now.records prefix.now ids) }
    {
        self.tree.prefix_ids(alloc, prefix)
    }

    /// Which records of a block of 64 ids are there and hold a number that compares so with `against`: bit i is that of the id 64 · block + i.
    /// `None` where the column does not hold one whole number of each record. `against` may lie outside the type's range.
    pub fn mask(&self, column: ColumnNo, block: u32, cmp: Cmp, against: i128) -> Option<u64>
        ensures whole { is_some result ≡ is_whole_column self.now.shapes column }
        ensures exact { IfSome result (IsRecordMask self.now column block cmp against) }
    {
        let held = column_of(self.columns.as_slice(), column)?;
        let mask = held.scan_mask(block, cmp, against)?;
        Some(mask & self.alive.word(block))
    }
}

// The column of a number, where it is there and holds data.
fn column_of(columns: &[Option<Column>], column: ColumnNo) -> Option<&Column>
    ensures { option_copied result ≡ option_flatten (slice_get columns.now column.0) }
{
    match columns.get(column.0 as usize) {
        Some(held) => held.as_ref(),
        None => None,
    }
}

/// The tree without a key, which must be there; the same where there is no key.
fn tree_without(tree: &KeyTree, alloc: Global, key: &Option<Key>) -> Result<KeyTree, NoMemory>
    requires { IfSome key.now (λ asked. is_some (get (map_of tree.now) (key_bytes asked)) ≡ true) }
    ensures { IfOk result (λ made. LosesKey (map_of tree.now) (map_of made) key.now) }
{
    match key {
        Some(key) => tree.without(alloc, key),
        None => tree.try_clone(),
    }
}

/// Keeps the key of an id, where there is a key, which must lead nowhere yet. After a failure the key may stand at its id, but does not lead there.
fn put_key(
    keys: &mut Places<Option<Key>>,
    tree: &mut KeyTree,
    alloc: Global,
    key: Option<&Key>,
    id: RecordId,
) -> Result<(), NoMemory>
    requires { IfSome (option_copied key) (λ asked. get (map_of tree.old) (key_bytes asked) ≡ None) }
    ensures ok { OnOk result (PutsKey keys.old (map_of tree.old) keys.new (map_of tree.new) (option_copied key.entry) id) }
    ensures err { OnErr result (map_of tree.new ≡ map_of tree.old) }
    ensures elsewhere { (other : ℕ) → other ≢ id.0 → value_at keys.new other ≡ value_at keys.old other }
    ensures keyless { option_copied key.entry ≡ None → keys.new ≡ keys.old }
{
    match key {
        Some(key) => {
            keys.set(alloc, id.0, Some(key.try_clone()?))?;
            tree.add(alloc, key, id)
        }
        None => Ok(()),
    }
}

/// A column that holds defaults; none without a shape.
fn new_column(alloc: Global, shape: Option<Shape>) -> Result<Option<Column>, NoMemory>
    requires { IfSome shape IsShape }
    ensures { IfOk result (λ made. made ≡ option_map (λ of. record { shape = of; cells = [] }) shape) }
{
    match shape {
        Some(shape) => Ok(Some(Column::new(alloc, shape)?)),
        None => Ok(None),
    }
}

/// Each column once more.
fn each_clone(alloc: Global, columns: &[Option<Column>]) -> Result<Vec<Option<Column>>, NoMemory>
    ensures { IfOk result (λ copies. copies.items ≡ columns.now) }
{
    let mut copies = Vec::with_capacity(alloc, columns.len())?;
    for column in columns {
        copies.push(clone_of(column)?)?;
    }
    Ok(copies)
}

fn clone_of(column: &Option<Column>) -> Result<Option<Column>, NoMemory>
    ensures { IfOk result (λ copy. copy ≡ column.now) }
{
    match column {
        Some(held) => Ok(Some(held.try_clone()?)),
        None => Ok(None),
    }
}
