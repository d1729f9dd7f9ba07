// Types, values and keys: as they are read from JSON, kept in cells and shown.
#![tactic(auto)]

mod data_type;
mod fault;
mod key_text;
mod path;
mod read;
mod read_list;
mod shown;
#[cfg(test)]
mod tests;
mod value;
mod view;

pub use data_type::{DataType, Kind, Range, Shape};
pub use fault::ReadFault;
pub use key_text::key_of_text;
pub use path::{Field, Hop, Hops, Path};
pub use read::{read_cell, read_key};
pub use shown::given_text;
pub use value::{Cell, Given, Key, Keys};
pub use view::CellView;
