// Lists of hits, what two of them make, and how often a phrase stands in each record.
#![tactic(auto)]

mod counts;
mod cursors;
mod difference;
mod gallop;
mod hits;
mod intersection;
mod merge;
mod parts;
mod phrases;
mod places;
mod room;
mod scores;
#[cfg(test)]
mod tests;
mod union;

pub use difference::without;
pub use hits::{HitList, scores_tell_apart};
pub use intersection::both;
pub use phrases::phrase;
pub use places::PlaceList;
pub use union::either;
