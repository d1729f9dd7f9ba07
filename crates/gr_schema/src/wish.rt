// What `table_create` and `column_create` ask for, as it was written.
use gr_base::Bytes;

/// What a `table_create` asks for. A text that is empty was not given.
#[derive(Drop)]
pub struct TableWish {
    /// The table's name.
    pub name: Bytes,
    /// `TABLE_NO_KEY`, `TABLE_HASH_KEY` or `TABLE_PAT_KEY`.
    pub flags: Bytes,
    /// The name of the type of its keys.
    pub key_type: Bytes,
    /// The name of a tokenizer, for a lexicon.
    pub tokenizer: Bytes,
}

/// What a `column_create` asks for. A text that is empty was not given.
#[derive(Drop)]
pub struct ColumnWish {
    /// The name of the table that is to have the column.
    pub table: Bytes,
    /// The column's name.
    pub name: Bytes,
    /// The flags, with `|` between them.
    pub flags: Bytes,
    /// The name of a type, or of a table: the one that a reference refers to, or the one that an index is over.
    pub kind: Bytes,
    /// The fields that an index reads, with commas between them.
    pub source: Bytes,
}
