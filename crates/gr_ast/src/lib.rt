// The trees of queries and scripts as they are written, and what holds of each that a parser makes.
#![tactic(auto)]

mod ast;
mod columns;
mod limits;
mod operators;
mod place;
mod room;
#[cfg(test)]
mod tests;

pub use ast::{Ast, Combined, Joined};
pub use columns::{MatchColumn, MatchColumns};
pub use limits::{BETWEEN_ARGUMENTS, LEAST_IN_VALUES, LEAST_WEIGHT, MOST_WEIGHT};
pub use operators::{Arith, FieldOp, Join, Seek};
pub use room::room_for_one;
