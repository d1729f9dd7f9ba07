// What is answered where a record is wanted.
use gr_base::RecordId;

/// A record that was wanted.
#[derive(Clone, Copy, Debug, PartialEq, Eq)]
pub enum Wanted {
    /// It was there, with this id.
    Found(RecordId),
    /// It was added, with this id.
    Added(RecordId),
    /// It is not there, and as many ids were given as the limit lets.
    Full,
}
