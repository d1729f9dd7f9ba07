// The newest state, and how entries are published to it.
#![tactic(auto)]

mod published;
mod solo;
#[cfg(test)]
mod tests;

pub use published::Published;
pub use solo::Solo;
