// A journal that grows.
use crate::{Change, Entry, Journal, Which};
use gr_base::{RecordId, SessionNo, TableNo};
use std::sync::Arc;
use std::test::Fail;

fn deletion(command: u64) -> Entry {
    Entry {
        session: SessionNo(1),
        command,
        part: 0,
        change: Change::Delete {
            table: TableNo(0),
            by: Which::Id(RecordId(1)),
        },
    }
}

#[test]
fn entries_stand_at_their_places(rt: HostRuntime) -> Result<(), Fail> {
    let alloc = rt.alloc();
    let first = Journal::new().pushed(alloc, Arc::new(alloc, deletion(0))?)?;
    let second = first.pushed(alloc, Arc::new(alloc, deletion(1))?)?;
    let journal = second.pushed(alloc, Arc::new(alloc, deletion(2))?)?;
    assert_eq!(rt; first.len(), 1);
    assert_eq!(rt; journal.len(), 3);
    for (place, want) in [(0, Some(0)), (2, Some(2)), (3, None), (u64::MAX, None)] {
        let command = journal.get(place).map(|entry| entry.command);
        assert_eq!(rt; command, want, "at {place}");
    }
    Ok(())
}
