// The records of one table: their keys, which of them are alive, and their cells by columns.
#![tactic(auto)]

mod key_bytes;
mod key_tree;
mod table;
#[cfg(test)]
mod tests;
mod wanted;

pub use table::TableRecords;
pub use wanted::Wanted;
