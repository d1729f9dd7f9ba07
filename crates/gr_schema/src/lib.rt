// Tables and columns: what a schema is, which tables and columns may be made, and how fields are found by their names.
#![tactic(auto)]

mod check_column;
mod check_table;
mod cut;
mod definition;
mod fields;
mod flags;
mod index;
mod names;
mod paths;
mod schema;
mod sources;
mod table;
#[cfg(test)]
mod tests;
mod wish;
mod words;

pub use definition::{ColumnDef, Columns, Fields, Role, TableDef, TableKind};
pub use schema::Schema;
pub use wish::{ColumnWish, TableWish};
