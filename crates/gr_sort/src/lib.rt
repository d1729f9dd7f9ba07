// Sort keys, and hits in their order.
#![tactic(auto)]

mod collect;
mod compare;
mod keys;
mod law;
mod row;
mod sorting;
#[cfg(test)]
mod tests;
mod value;

pub use compare::compare_worths;
pub use keys::{SortKey, SortOrder, is_descending, order, unsigned};
pub use law::order_keeps_and_sorts;
pub use sorting::sorted;
pub use value::{Value, key_value, path_value};
