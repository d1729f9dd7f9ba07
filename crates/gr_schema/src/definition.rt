// What a table and a column are.
use gr_base::{Bytes, ListOf, TableNo};
use gr_pvec::PVec;
use gr_tokens::Tokenizer;
use gr_values::{DataType, Field, Kind};

/// How a table finds its records.
#[derive(Clone, Copy, Debug, PartialEq, Eq)]
pub enum TableKind {
    /// By their ids alone: `TABLE_NO_KEY`.
    NoKey,
    /// By a hash of the key: `TABLE_HASH_KEY`.
    Hash,
    /// By the key, and by its first bytes: `TABLE_PAT_KEY`.
    Pat,
}

/// Columns in order of making, data and index columns together.
pub type Columns = PVec<ColumnDef>;

/// Fields, in order.
pub type Fields = ListOf<Field>;

/// A table. One with a tokenizer is a lexicon: its records are the tokens of the texts that its index columns read.
#[derive(Drop)]
pub struct TableDef {
    /// Its name.
    pub name: Bytes,
    /// How it finds its records.
    pub kind: TableKind,
    /// The type of its keys, where it is keyed.
    pub key: Option<DataType>,
    /// How a lexicon cuts texts.
    pub tokenizer: Option<Tokenizer>,
    /// Its columns.
    pub columns: Columns,
}

/// A column.
#[derive(Drop)]
pub struct ColumnDef {
    /// Its name.
    pub name: Bytes,
    /// What it is for.
    pub role: Role,
}

/// What a column is for.
#[derive(Drop)]
pub enum Role {
    /// It holds one value for each record.
    Scalar(Kind),
    /// It holds a list of values for each record.
    Vector(Kind),
    /// It finds records by what stands in their fields.
    Index {
        /// The table whose records it finds.
        target: TableNo,
        /// The fields of that table that it reads, in order.
        sources: Fields,
        /// Whether `WITH_POSITION` was given. It changes nothing but the dump: positions are always kept.
        position: bool,
        /// Whether `WITH_SECTION` was given, without which it has one source.
        section: bool,
    },
}
