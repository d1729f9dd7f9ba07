// Records that an entry wants to be there.
use gr_base::{RecordId, TableNo};
use gr_values::Key;

/// A record that is wanted: one of this key, or where it has no key one more.
#[derive(Drop)]
pub struct Want {
    /// Its table.
    pub table: TableNo,
    /// Its key, where its table is keyed.
    pub key: Option<Key>,
}

/// A record that was added.
#[derive(Drop)]
pub struct Added {
    /// What it was added for.
    pub want: Want,
    /// Its id.
    pub id: RecordId,
}
