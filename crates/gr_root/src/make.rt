// What a change makes: the schema, the tables and the records that it touched.
use crate::shared_schema::SharedSchema;
use gr_base::{ListOf, RecordId, TableNo};
use gr_pvec::PVec;
use gr_table::TableRecords;

/// Records that a change touched, each by its table and its id.
pub(crate) type Places = ListOf<(TableNo, RecordId)>;

/// What a change made.
#[derive(Drop)]
pub(crate) struct Made {
    /// The schema.
    pub(crate) schema: SharedSchema,
    /// The tables.
    pub(crate) tables: PVec<TableRecords>,
    /// The records that it touched.
    pub(crate) touched: Places,
}
