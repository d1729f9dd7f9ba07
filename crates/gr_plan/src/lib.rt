// The records that a condition finds.
#![tactic(auto)]

mod blocks;
mod leaves;
mod planes;
mod pushed;
mod scan;
mod scores;
mod search;
#[cfg(test)]
mod tests;

pub use blocks::Blocks;
pub use search::hits;
