// Indexes: postings in segments, the segments in levels, each with its range of journal places.
#![tactic(auto)]

mod added;
mod cursor;
mod index;
mod limits;
mod parts;
mod ranges;
mod segments;
#[cfg(test)]
mod tests;

pub use cursor::IndexCursor;
pub use index::Index;
pub use limits::{FOLDED_SEGMENTS, MOST_SEGMENTS};
pub use ranges::Stale;
