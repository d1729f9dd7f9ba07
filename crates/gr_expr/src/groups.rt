// The groups of a drilldown: records with one value at a path.

use gr_base::{Bytes, RecordId, TableNo};

/// What the records of a group have at the path.
#[derive(Drop)]
pub enum GroupKey {
    /// A reference to this record of this table.
    Ref(TableNo, RecordId),
    /// A whole number.
    Number(i128),
    /// A text, which is UTF-8.
    Text(Bytes),
    /// `true` or `false`.
    Truth(bool),
}

/// The records that have one value at a path.
#[derive(Drop)]
pub struct Group {
    /// The value.
    pub key: GroupKey,
    /// How many records have it.
    pub count: u32,
}
