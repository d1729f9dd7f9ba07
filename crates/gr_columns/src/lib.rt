// Columns: cells by record id, in persistent blocks of 64.
#![tactic(auto)]

mod again;
mod column;
mod kept;
mod lists;
mod masks;
mod places;
#[cfg(test)]
mod tests;
mod truths;

pub use again::Again;
pub use column::Column;
pub use places::{BLOCK_CELLS, Places};
pub use truths::Truths;
