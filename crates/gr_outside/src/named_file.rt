// A file in memory, with its name and the reads that are to fail.
ghost use Rattle.std.specs.Prelude.{◌<◌};

use super::{Calls, MemorySource};
use gr_base::{Bytes, NoMemory};
use std::alloc::Global;

/// A file in memory: what a source of its name is made of.
#[derive(Drop)]
pub struct NamedFile {
    /// Its name.
    pub name: Bytes,
    /// Its bytes.
    pub bytes: Bytes,
    /// The numbers of its reads that fail, from 0.
    pub failing: Calls,
    /// The most that a read gives.
    pub largest: usize,
    ghost some: { 0 < largest },
}

impl NamedFile {
    ghost use Rattle.std.specs.Prelude.{◌≡◌, IfOk};
    ghost use Rattle.gr_outside.specs.NamedFiles.{source_of};

    // A source of this file, from its first byte.
    pub(crate) fn source(&self, alloc: Global) -> Result<MemorySource, NoMemory>
        ensures { IfOk result (λ source. source ≡ source_of self.now) }
    {
        let failing = Vec::from_slice(alloc, self.failing.as_slice())?;
        MemorySource::new(
            self.bytes.try_clone()?,
            Calls::from_vec(failing),
            self.largest,
        )
    }
}
