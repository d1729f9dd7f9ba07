// What each command means, and the session that runs them.
#![tactic(auto)]

mod asked;
mod checks;
mod commands;
mod fixed;
mod form;
mod parsed;
mod reply;
mod session;
mod solo;
mod under_way;

pub use session::{Done, Session, Step};
pub use solo::step_solo;
