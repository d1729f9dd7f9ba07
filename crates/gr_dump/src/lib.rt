// The text of a dump: the commands that make a database again.
#![tactic(auto)]

mod definitions;
mod dumped;
mod indexes;
mod loads;
mod parts;
mod shown;
#[cfg(test)]
mod tests;
mod words;

pub use dumped::dump;
