// The reader of command lines: both forms of a line, load data, and pieces of any size.
#![tactic(auto)]

mod args;
mod argument;
mod bindings;
mod brackets;
mod buffer;
mod command;
mod cursor;
mod line;
mod load;
mod missing;
mod outcome;
mod param;
mod parameters;
mod path;
mod reader;
mod refused;
mod request;
mod scan;
#[cfg(test)]
mod tests;
mod text;
mod verb;
mod words;

pub use args::Args;
pub use command::{Command, Item, Next};
pub use param::Param;
pub use reader::Reader;
pub use verb::Verb;
