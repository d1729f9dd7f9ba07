// Files in memory, with the opens that are to fail.
ghost use Rattle.std.specs.Prelude.{◌≡◌, Ok, option_copied};
ghost use Rattle.gr_outside.specs.NamedFiles.{file_named, filing_of};

use super::memory_source::is_failing;
use super::{Calls, Files, MemorySource, NamedFile, OpenFault};
use gr_base::{ListOf, NoMemory};
use std::alloc::Global;
use std::marker::Model;

/// Files in memory; of several of one name the first is opened.
pub type NamedFiles = ListOf<NamedFile>;

/// Files by name in memory. An open fails where the name is among no file's, or the open's number is among `failing`.
#[derive(Drop)]
pub struct MemoryFiles {
    files: NamedFiles,
    failing: Calls,
    call: u64,
    faults: u64,
}

impl Model for MemoryFiles {
    ghost use Rattle.gr_outside.specs.NamedFiles.{Filing};

    ghost Value = { Filing };

    ghost view = { λ f. record { files = f.files; failing = f.failing; call = f.call; faults = f.faults } };
}

impl MemoryFiles {
    /// These files, of which the opens of these numbers fail.
    pub fn new(files: NamedFiles, failing: Calls) -> Result<MemoryFiles, NoMemory>
        ensures { result ≡ Ok (filing_of files failing) }
    {
        Ok(MemoryFiles {
            files,
            failing,
            call: 0,
            faults: 0,
        })
    }
}

impl Files for MemoryFiles {
    type File = MemorySource;

    ghost use Rattle.std.specs.Prelude.{◌-◌, ◌^◌, ◌<◌, IfOk};
    ghost use Rattle.gr_outside.specs.Memory.{told_by as source_told};
    ghost use Rattle.gr_outside.specs.NamedFiles.{Opens, after_open, found_by, told_by};
    ghost use Rattle.gr_outside.specs.Outside.{AreSameFiles, CountsOpen, IsAsTold, as_opened};

    ghost told = { told_by };

    fn open(&mut self, alloc: Global, name: &str) -> Result<MemorySource, OpenFault>
        requires { self.old.faults < 2 ^ 64 - 1 }
        ensures same { AreSameFiles (told_by self.old) (told_by self.new) }
        ensures faults { CountsOpen (told_by self.old) (told_by self.new) name.now result }
        ensures opened { IfOk result (λ file. IsAsTold (as_opened ((told_by self.old).named name.now)) (source_told file)) }
        ensures exactly { Opens (found_by self.old name.now) result }
        ensures after { self.new ≡ after_open self.old (found_by self.old name.now) }
    {
        let fails = is_failing(self.failing.as_slice(), self.call);
        self.call = self.call.saturating_add(1);
        match named(self.files.as_slice(), name.as_bytes()) {
            Some(file) if !fails => file.source(alloc).map_err(|_| OpenFault::NoMemory),
            _ => {
                self.faults += 1;
                Err(OpenFault::Failed)
            }
        }
    }
}

// The first file of this name.
fn named<'a>(files: &'a [NamedFile], name: &[u8]) -> Option<&'a NamedFile>
    ensures { option_copied result ≡ file_named files.now name.now }
{
    files.iter().find(|file| file.name.as_slice() == name)
}

#[cfg(test)]
mod tests;
