// What a call on the outside answers where it does not succeed.
use thiserror::Error;

/// A read or a write that failed. Nothing was given or taken.
#[derive(Clone, Copy, Debug, PartialEq, Eq, Error)]
#[error("failed, and so {faults} times in all")]
pub struct Failed {
    /// The count of faults after the call.
    pub faults: u64,
}

/// An open that did not succeed.
#[derive(Clone, Copy, Debug, PartialEq, Eq, Error)]
pub enum OpenFault {
    /// The file could not be opened, and the count of faults rose.
    #[error("the file could not be opened")]
    Failed,
    /// No memory was found.
    #[error("no memory")]
    NoMemory,
}
