// The script syntax: from a text to its tree, or to its fault.
#![tactic(auto)]

mod answers;
mod column;
mod columns;
mod frame;
mod grammar;
mod match_columns;
mod parts;
mod precedence;
mod reader;
mod script;
mod stack;
mod symbols;
#[cfg(test)]
mod tests;
mod token;
mod tokenizer;
mod trees;
mod words;

pub use answers::{longest_token, one_answer_as_columns, one_answer_as_script};
pub use gr_ast::{MatchColumn, MatchColumns};
pub use match_columns::parse_columns;
pub use script::parse;
