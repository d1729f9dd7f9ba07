// What a select shows: its condition typed, its hits found, and its rows printed.
#![tactic(auto)]

mod conditions;
mod faults;
mod layout;
mod numbers;
mod showing;
mod texts;

pub use conditions::condition;
pub use faults::fault_named;
pub use numbers::number_of;
pub use showing::select;
pub use texts::{Texts, texts_of};
