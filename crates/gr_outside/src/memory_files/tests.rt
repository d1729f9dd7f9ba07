ghost use Rattle.std.specs.Prelude.{◌≡◌, IfOk};

use super::super::Source;
use super::*;
use gr_base::Bytes;
use std::test::Fail;

fn file(alloc: Global, name: &str, bytes: &str) -> Result<NamedFile, NoMemory> {
    Ok(NamedFile {
        name: Bytes::from_slice(alloc, name.as_bytes())?,
        bytes: Bytes::from_slice(alloc, bytes.as_bytes())?,
        failing: Calls::from_vec(Vec::new(alloc)),
        largest: 8,
    })
}

// Two of one name; the third open fails.
fn files(alloc: Global) -> Result<MemoryFiles, NoMemory>
    ensures { IfOk result (λ files. files.faults ≡ 0) }
{
    let files = vec![in alloc; file(alloc, "a", "first")?, file(alloc, "a", "second")?]?;
    let failing = Vec::from_slice(alloc, &[2])?;
    MemoryFiles::new(NamedFiles::from_vec(files), Calls::from_vec(failing))
}

#[test]
fn files_open_the_first_of_a_name_and_count_each_refusal(rt: HostRuntime) -> Result<(), Fail> {
    let mut files = files(rt.alloc())?;
    let mut opened = files.open(rt.alloc(), "a")?;
    let mut room = [0u8; 8];
    assert_eq!(rt; opened.read(&mut room), Ok(5));
    assert!(rt; room.starts_with(b"first"));
    for (name, count) in [("missing", 1), ("a", 2)] {
        assert_eq!(rt; files.faults, count - 1);
        assert_eq!(rt;
            files.open(rt.alloc(), name).err(),
            Some(OpenFault::Failed),
            "{name}"
        );
        assert_eq!(rt; files.faults, count);
    }
    Ok(())
}
