// Typing: what a condition as it is written means for a table, or its first fault.
#![tactic(auto)]

mod binder;
mod column;
mod cut;
mod fields;
mod index;
mod kinds;
mod literals;
mod operand;
mod operators;
mod part;
mod refused;
mod taken;
mod typing;
mod words;

pub use operand::{Operand, ValueKind};
pub use typing::{bind, check_columns};
