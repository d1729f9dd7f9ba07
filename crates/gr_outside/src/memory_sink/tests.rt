use super::*;
use std::test::Fail;

#[test]
fn a_sink_takes_long_pieces_in_part_and_goes_on_after_a_failing_call(
    rt: HostRuntime,
) -> Result<(), Fail> {
    let failing = Calls::from_vec(Vec::from_slice(rt.alloc(), &[1])?);
    let mut sink = MemorySink::new(rt.alloc(), failing, 3)?;
    assert_eq!(rt; sink.write(b"abcde"), Ok(3));
    assert_eq!(rt; sink.write(b"de"), Err(Failed { faults: 1 }));
    assert_eq!(rt; sink.write(b"de"), Ok(2));
    assert_eq!(rt; sink.taken(), b"abcde".as_slice());
    Ok(())
}
