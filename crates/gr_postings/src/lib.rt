// Postings: which record has a term, where in it, and which entry of the journal said so.
#![tactic(auto)]

mod alive;
mod buffer;
mod numbers;
mod order;
mod positions;
mod posting;
#[cfg(test)]
mod tests;
mod view;

pub use alive::Alive;
pub use buffer::{Buffer, buffer_of};
pub use numbers::{push_number, read_number};
pub use order::{order_tells_apart, sort_views};
pub use positions::Positions;
pub use posting::Posting;
pub use view::{PositionsView, PostingView, push_positions};
