ghost use Rattle.std.specs.Prelude.{◌≡◌, ◌<◌, IfOk};

use super::*;
use std::alloc::Global;
use std::test::Fail;

// The second read fails.
fn source(alloc: Global, largest: usize) -> Result<MemorySource, NoMemory>
    requires { 0 < largest }
    ensures { IfOk result (λ source. source.faults ≡ 0) }
{
    let failing = Calls::from_vec(Vec::from_slice(alloc, &[1])?);
    MemorySource::new(Bytes::from_slice(alloc, b"abcde")?, failing, largest)
}

#[test]
fn a_source_goes_on_after_a_failing_call(rt: HostRuntime) -> Result<(), Fail> {
    for (largest, first, second) in [(1, "a", "b"), (3, "abc", "de")] {
        assert!(rt; largest > 0);
        let mut source = source(rt.alloc(), largest)?;
        let mut room = [0u8; 8];
        assert_eq!(rt; source.read(&mut room), Ok(first.len()), "by {largest}");
        assert_eq!(rt; source.read(&mut room), Err(Failed { faults: 1 }));
        assert!(rt; room.starts_with(first.as_bytes()), "by {largest}");
        assert_eq!(rt; source.read(&mut room), Ok(second.len()), "by {largest}");
        assert!(rt; room.starts_with(second.as_bytes()), "by {largest}");
    }
    Ok(())
}
