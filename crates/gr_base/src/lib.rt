// Numbers, limits, shared texts, lists, names, faults and failures: what every other crate speaks of.
#![tactic(auto)]

mod bytes;
mod compare;
mod failure;
mod fault;
mod key_table;
mod limits;
mod list;
mod memory;
mod name;
mod numbers;
mod short;
mod steps;
#[cfg(test)]
mod tests;
mod text;

pub use bytes::Bytes;
pub use compare::Cmp;
pub use failure::Failure;
pub use fault::{Fault, FaultKind, fault_text};
pub use key_table::KeyTable;
pub use limits::{
    DEFAULT_JOURNAL_ENTRIES, DEFAULT_LINE_BYTES, DEFAULT_RECORDS, DEFAULT_SOURCE_BYTES,
    LONGEST_KEY, LONGEST_LONG_TEXT, LONGEST_MIDDLE_TEXT, LONGEST_NAME, LONGEST_SHORT_TEXT,
    LONGEST_VECTOR, LONGEST_WORD, MOST_JOURNAL_ENTRIES, MOST_LEVELS, MOST_LINE_BYTES, MOST_RECORDS,
    MOST_SCORE, MOST_SOURCE_BYTES, MOST_SOURCES, SHOWN_ROWS,
};
pub use list::{Ids, Ints, ListOf, Texts};
pub use memory::NoMemory;
pub use name::is_name;
pub use numbers::{ColumnNo, Limits, RecordId, SessionNo, TableNo};
pub use steps::Steps;
pub use text::is_blank;
