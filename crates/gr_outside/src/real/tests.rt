ghost use Rattle.std.specs.Prelude.{◌≤◌, IfOk};

use super::*;
use std::collections::VecDeque;
use std::io;
use std::test::Fail;

// Is interrupted at its first call, moves all that it may at its second, and fails from then on.
#[derive(Drop)]
struct Device {
    calls: u8,
}

impl Device {
    fn answer(&mut self, most: usize) -> io::Result<usize>
        ensures { IfOk result (λ moved. moved ≤ most) }
    {
        self.calls = self.calls.saturating_add(1);
        match self.calls {
            1 => Err(io::Error::from(ErrorKind::Interrupted)),
            2 => Ok(most),
            _ => Err(io::Error::from(ErrorKind::Other)),
        }
    }
}

impl Read for Device {
    fn read(&mut self, buf: &mut [u8]) -> io::Result<usize> {
        self.answer(buf.len())
    }
}

impl Write for Device {
    fn write(&mut self, buf: &[u8]) -> io::Result<usize> {
        self.answer(buf.len())
    }

    fn flush(&mut self) -> io::Result<()> {
        Ok(())
    }
}

#[test]
fn a_real_file_is_read_and_a_missing_one_counted(rt: HostRuntime) -> Result<(), Fail> {
    fs::write(&rt, "written", "abc")?;
    let mut files = RealFiles::new(rt);
    let mut file = files.open(rt.alloc(), "written")?;
    let mut room = [0u8; 8];
    assert_eq!(rt; file.read(&mut room), Ok(3));
    assert_eq!(rt; file.read(&mut room), Ok(0));
    assert!(rt; room.starts_with(b"abc"));
    assert_eq!(rt;
        files.open(rt.alloc(), "missing").err(),
        Some(OpenFault::Failed)
    );
    assert_eq!(rt; files.faults, 1);
    fs::remove_file(&rt, "written")?;
    Ok(())
}

#[test]
fn a_real_sink_hands_its_pieces_on(rt: HostRuntime) -> Result<(), Fail> {
    let mut sink = RealSink::new(VecDeque::new(rt.alloc()));
    assert_eq!(rt; sink.write(b"abc"), Ok(3));
    assert_eq!(rt; sink.write(b"de"), Ok(2));
    assert!(rt; sink.writer.iter().eq(b"abcde"));
    Ok(())
}

// Takes one byte of each piece.
#[derive(Drop)]
struct Narrow {
    held: VecDeque<u8>,
}

impl Write for Narrow {
    fn write(&mut self, buf: &[u8]) -> io::Result<usize> {
        self.held.write(&buf[..buf.len().min(1)])
    }

    fn flush(&mut self) -> io::Result<()> {
        Ok(())
    }
}

#[test]
fn a_real_sink_claims_no_more_than_its_writer_took(rt: HostRuntime) {
    let mut sink = RealSink::new(Narrow {
        held: VecDeque::new(rt.alloc()),
    });
    assert_eq!(rt; sink.write(b"abc"), Ok(1));
    assert_eq!(rt; sink.write(b"bc"), Ok(1));
    assert!(rt; sink.writer.held.iter().eq(b"ab"));
}

#[test]
fn interrupted_calls_are_tried_again_and_other_errors_counted(rt: HostRuntime) {
    let mut source = RealSource::new(Device { calls: 0 });
    let mut room = [0u8; 8];
    assert_eq!(rt; source.read(&mut room), Ok(8));
    assert_eq!(rt; source.read(&mut room), Err(Failed { faults: 1 }));
    let mut sink = RealSink::new(Device { calls: 0 });
    assert_eq!(rt; sink.write(b"abc"), Ok(3));
    assert_eq!(rt; sink.write(b"abc"), Err(Failed { faults: 1 }));
}
