// The query syntax: from a text to its tree, or to its fault.
#![tactic(auto)]

mod fields;
mod frame;
mod query;
mod reader;
mod runs;
#[cfg(test)]
mod tests;
mod token;
mod tokenizer;
mod units;

pub use query::{one_answer, parse};
