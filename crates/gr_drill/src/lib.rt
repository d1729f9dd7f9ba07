// The groups of a drilldown: hits by the value at a path, and the block that shows them.
#![tactic(auto)]

mod block;
mod cells;
mod columns;
mod drilldown;
mod ends;
mod fields;
mod grouping;
mod headings;
mod items;
mod lent_key;
mod names;
mod numbered;
mod order;
mod rows;
mod tally;
#[cfg(test)]
mod tests;
mod worths;

pub use block::group_block;
pub use drilldown::{Drilldown, Drilldowns, GroupColumn, GroupItem, GroupSortKey, drilldowns};
pub use grouping::groups;
pub use tally::MOST_COUNT;
