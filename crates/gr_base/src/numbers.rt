// Numbers of tables, columns, records and sessions, and the limits of a run.
use crate::limits::{
    DEFAULT_JOURNAL_ENTRIES, DEFAULT_LINE_BYTES, DEFAULT_RECORDS, DEFAULT_SOURCE_BYTES,
};

/// A table's number, in order of making, from 0.
#[derive(Clone, Copy, Debug, PartialEq, Eq, PartialOrd, Ord)]
pub struct TableNo(pub u32);

/// A column's number within its table, data and index columns together, in order of making, from 0.
#[derive(Clone, Copy, Debug, PartialEq, Eq, PartialOrd, Ord)]
pub struct ColumnNo(pub u32);

/// A record's id within its table, from 1. Where a reference holds 0, it is empty.
#[derive(Clone, Copy, Debug, PartialEq, Eq, PartialOrd, Ord)]
pub struct RecordId(pub u32);

/// A session's number, from 1 in the order of the files over all phases. The merger has 0.
#[derive(Clone, Copy, Debug, PartialEq, Eq, PartialOrd, Ord)]
pub struct SessionNo(pub u32);

/// What a run takes at most.
#[derive(Clone, Copy, Debug, PartialEq, Eq)]
pub struct Limits {
    /// Ids given in one table, 1 to `MOST_RECORDS`.
    pub records: u32,
    /// Entries of the journal other than merges, 1 to `MOST_JOURNAL_ENTRIES`.
    pub journal: u64,
    /// Bytes of one file, 1 to `MOST_SOURCE_BYTES`.
    pub source: u64,
    /// Bytes of one line without its end, 1 to `MOST_LINE_BYTES`.
    pub line: u64,
}

impl Default for Limits {
    ghost use Rattle.std.specs.Prelude.{◌≡◌};
    ghost use Rattle.gr_base.specs.Limits.{default_limits};

    ghost is_default = { λ limits. limits ≡ default_limits };

    fn default() -> Limits {
        Limits {
            records: DEFAULT_RECORDS,
            journal: DEFAULT_JOURNAL_ENTRIES,
            source: DEFAULT_SOURCE_BYTES,
            line: DEFAULT_LINE_BYTES,
        }
    }
}
