// What a select prints: its columns, the window of its rows, and the block.
#![tactic(auto)]

mod data;
mod ends;
mod headings;
mod items;
mod names;
mod out_column;
mod printing;
mod rows;
mod span;
#[cfg(test)]
mod tests;
mod values;

pub use data::data_columns;
pub use ends::trimmed;
pub use headings::{path_type, type_name};
pub use items::write_path;
pub use out_column::{OutColumn, OutColumns, OutItem, columns};
pub use printing::block;
pub use rows::{with_names, with_row};
pub use span::{Span, window};
pub use values::{close_array, open_array, write_count, write_key, write_number, write_text};
