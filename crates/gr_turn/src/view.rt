// What a seat at the table of a turn knows. No value of these types is made.
use std::collections::LinkedList;

/// Where a seat stands in the line.
pub enum Stage {
    Idle,
    /// It has this number, and waits for it to be served.
    Waits(u64),
    /// Its number is served: the slot is out with it.
    Serves(u64),
}

/// A seat's view of the list.
pub struct View<I, F> {
    /// The entries that it has seen.
    pub seen: LinkedList<I>,
    /// The shorter of the two lists that a join put together.
    pub told: LinkedList<I>,
    /// The places of the entries that it gave.
    pub own: LinkedList<u64>,
    pub shares: u64,
    pub fixed: F,
    pub stage: Stage,
}
