// A persistent tree of keys of bounded depth, generic in the order of the keys, and a plain list of keys.
#![tactic(auto)]

mod child;
mod entry;
mod growing;
mod halves;
mod ids;
mod inner;
mod items;
mod key;
mod key_order;
mod leaf;
mod node;
mod plain;
#[cfg(test)]
mod tests;
mod tree;

pub use growing::GrowingKeys;
pub use key_order::KeyOrder;
pub use plain::PlainKeys;
pub use tree::Tree;
