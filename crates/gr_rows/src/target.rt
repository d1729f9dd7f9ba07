// The table that load data are for.
use gr_base::TableNo;
use gr_schema::{Schema, TableDef};
use std::alloc::Global;

/// A table that is loaded.
#[derive(Clone, Copy)]
pub(crate) struct Target<'a> {
    /// Where values are kept.
    pub(crate) alloc: Global,
    /// The schema.
    pub(crate) schema: &'a Schema,
    /// The table's number.
    pub(crate) table: TableNo,
    /// Its definition.
    pub(crate) home: &'a TableDef,
}
