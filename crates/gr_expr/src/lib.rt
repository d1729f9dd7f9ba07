// The typed trees of conditions, what they are shown as in groups, and the trees as they are written, named on.
#![tactic(auto)]

mod calc;
mod compare;
mod groups;
mod hits;
mod path;
mod rows;
mod scores;
mod seek;
#[cfg(test)]
mod tests;
mod typed;
mod value;

pub use calc::{LEAST_WHOLE, MOST_WHOLE};
pub use gr_ast::{Arith, Ast, Combined, FieldOp, Join, Joined, MatchColumn, MatchColumns, Seek};
pub use groups::{Group, GroupKey};
pub use hits::HitRows;
pub use path::end_of;
pub use rows::Rows;
pub use scores::score;
pub use typed::{By, CombinedTerm, Expr, JoinedExpr, Literal, SeekLeaf, Term, WeightedLeaf};
