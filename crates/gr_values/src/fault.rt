// Why a value or a key could not be read.
use gr_base::{Failure, FaultKind};

/// A value or a key that was not read: it is none of those that are taken, or no memory was found.
pub type ReadFault = Failure<FaultKind>;
