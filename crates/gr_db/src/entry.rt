// Entries of the journal.
use crate::SharedExpr;
use gr_base::{ColumnNo, ListOf, RecordId, SessionNo, TableNo};
use gr_schema::{ColumnWish, TableWish};
use gr_values::{Given, Key};

/// Values that are given to columns, in order.
pub type Settings = ListOf<(ColumnNo, Given)>;

/// The record that a deletion is about.
#[derive(Drop)]
pub enum Which {
    /// The one of this id.
    Id(RecordId),
    /// The one of this key.
    Key(Key),
}

/// What an entry does.
#[derive(Drop)]
pub enum Change {
    /// Makes a table.
    CreateTable(TableWish),
    /// Makes a column.
    CreateColumn(ColumnWish),
    /// Finds or adds a record, and sets cells of it.
    Put {
        /// The table.
        table: TableNo,
        /// The record's key, where the table is keyed.
        key: Option<Key>,
        /// The cells that are set.
        settings: Settings,
    },
    /// Removes a record.
    Delete {
        /// The table.
        table: TableNo,
        /// Which record.
        by: Which,
    },
    /// Removes a record where a condition finds it still, and else does nothing.
    DeleteIf {
        /// The table.
        table: TableNo,
        /// The record.
        id: RecordId,
        /// The condition.
        condition: SharedExpr,
    },
    /// Records that postings of an index were folded, which changes no answer.
    Merge {
        /// The index's table.
        table: TableNo,
        /// The index.
        column: ColumnNo,
        /// The first place of the journal whose postings were folded.
        from: u64,
        /// The place behind the last one.
        to: u64,
    },
}

/// One entry of the journal: who asked for it, and what it does.
#[derive(Drop)]
pub struct Entry {
    /// The session that published it; 0 for a merge.
    pub session: SessionNo,
    /// The command's number in its session, from 0.
    pub command: u64,
    /// The entry's number among those of its command, from 0.
    pub part: u64,
    /// What it does.
    pub change: Change,
}
