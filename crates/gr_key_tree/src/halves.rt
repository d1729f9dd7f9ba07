// Two nodes in the place of one.
use super::child::Child;
use super::key_order::KeyOrder;
use gr_base::RecordId;

/// Two nodes of one height in the place of one.
#[derive(Drop)]
pub(crate) struct Halves<K: KeyOrder> {
    pub(crate) lower: Child<K>,
    pub(crate) upper: Child<K>,
}

/// The id of a key, if it was there, and the halves of a node that have the key now.
#[derive(Drop)]
pub(crate) struct Parted<K: KeyOrder> {
    pub(crate) found: Option<RecordId>,
    pub(crate) halves: Halves<K>,
}
