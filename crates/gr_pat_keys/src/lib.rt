// Keys by their text: a persistent tree in which the keys of a prefix stand together.
#![tactic(auto)]

#[cfg(test)]
mod hostile;
mod order;
#[cfg(test)]
mod tests;

use gr_key_tree::Tree;
pub use order::TextOrder;

/// A finite map from keys to ids. `prefix_ids` walks only the part whose keys begin with the prefix.
pub type PatKeys = Tree<TextOrder>;
