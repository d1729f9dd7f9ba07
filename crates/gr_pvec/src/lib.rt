// A persistent vector: a list of shared elements, of which changed copies share all but a path.
#![tactic(auto)]

mod items;
mod leaf;
mod node;
mod shares;
#[cfg(test)]
mod tests;
mod vector;

pub use items::Items;
pub use node::MOST_LEVELS;
pub use vector::PVec;
