// The turn: one list that threads lengthen one after the other, behind a ticket lock.
#![tactic(auto)]

mod held;
mod plays;
mod rule;
mod steps;
#[cfg(test)]
mod tests;
mod turn;
mod view;

pub use held::Held;
pub use turn::{Pass, Turn};
