// What publishing an entry answers.
use gr_base::Fault;

/// What publishing an entry answers.
#[derive(Drop)]
pub enum Published {
    /// The entry stands in the journal.
    Published {
        /// Its place, counted from 0.
        place: u64,
    },
    /// The entry is refused, and nothing changed.
    Refused {
        /// Its first fault.
        fault: Fault,
        /// The length of the journal where it was refused.
        mark: u64,
    },
    /// No memory was found, and nothing changed.
    NoMemory {
        /// The length of the journal.
        mark: u64,
    },
}
