// The outside of a run: where bytes come from, where they go, and which calls may fail.
#![tactic(auto)]

mod failed;
mod memory_files;
mod memory_sink;
mod memory_source;
mod named_file;
mod real;
mod traits;

pub use failed::{Failed, OpenFault};
pub use memory_files::{MemoryFiles, NamedFiles};
pub use memory_sink::MemorySink;
pub use memory_source::{Calls, MemorySource};
pub use named_file::NamedFile;
pub use real::{RealFiles, RealSink, RealSource};
pub use traits::{Files, Sink, Source};
