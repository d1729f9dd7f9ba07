// The state: what the journal's entries made, ready to be read and to take one entry more.
#![tactic(auto)]

mod changing;
mod create;
mod delete;
mod make;
mod put;
mod readers;
mod root;
mod shared_schema;
mod walk;
mod working;

pub use root::Root;
