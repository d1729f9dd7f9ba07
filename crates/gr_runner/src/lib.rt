// Runs: sessions over the sources of each phase, their one journal, and what is written of their replies.
#![tactic(auto)]

mod commands;
mod program;
mod report;
mod serial;
mod status;
#[cfg(test)]
mod tests;
mod write;

pub use program::main_call;
pub use report::{Dones, End, Report, SessionLog, SessionLogs};
pub use serial::run_serial;
pub use status::Status;
