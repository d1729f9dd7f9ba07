// Load data: the puts that they ask for, and the first fault among them.
#![tactic(auto)]

mod blanks;
mod comma;
mod fault;
mod json;
mod key;
mod load;
mod members;
mod names;
mod places;
mod put;
mod row;
mod slot;
mod target;
#[cfg(test)]
mod tests;

pub use load::{LoadRows, rows};
pub use put::{Put, Puts};
