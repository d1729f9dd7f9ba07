// The places and the faults that entries get, and a pinned state.
ghost use Rattle.std.specs.Prelude.{◌≡◌, ◌<◌, IfOk, IsUtf8, length};
ghost use Rattle.gr_base.specs.Limits.{IsInRange, IsUpTo};
ghost use Rattle.gr_root.specs.Root.{HoldsText};
ghost use Rattle.gr_db.specs.Entry.{IsValid};
ghost use Rattle.gr_db.specs.Apply.{replay};

use super::{Published, Solo};
use gr_base::{Bytes, Limits, NoMemory, SessionNo, TableNo, fault_text};
use gr_db::{Change, Entry};
use gr_schema::TableWish;
use std::alloc::Global;
use std::process::Abort;
use std::sync::Arc;
use std::test::Fail;

fn text(alloc: Global, chars: &str) -> Result<Bytes, NoMemory>
    ensures exact { IfOk result (λ made. made ≡ chars.now) }
    ensures utf8 { IfOk result IsUtf8 }
{
    Bytes::from_string(alloc, String::from_str(alloc, chars)?)
}

// The place and no text, or the mark and the fault's text.
fn publish(solo: &mut Solo, alloc: Global, change: Change) -> Result<(u64, Bytes), NoMemory>
    requires valid { IsValid (replay solo.old.journal).schema change }
    requires text { HoldsText change }
{
    let entry = Entry {
        session: SessionNo(1),
        command: 0,
        part: 0,
        change,
    };
    match solo.publish(alloc, entry) {
        Published::Published { place } => Ok((place, text(alloc, "")?)),
        Published::Refused { fault, mark } => Ok((mark, fault_text(alloc, &fault)?)),
        Published::NoMemory { .. } => Err(NoMemory),
    }
}

fn create(solo: &mut Solo, alloc: Global, name: &str) -> Result<(u64, Bytes), NoMemory> {
    let not_given = text(alloc, "")?;
    let wish = TableWish {
        name: text(alloc, name)?,
        flags: not_given.try_clone()?,
        key_type: text(alloc, "ShortText")?,
        tokenizer: not_given,
    };
    publish(solo, alloc, Change::CreateTable(wish))
}

// A table that is to be created; then the place and no text, or the mark and the fault's text.
type Step<'a> = (&'a str, u64, &'a str);

fn take_steps(
    rt: &impl Abort,
    solo: &mut Solo,
    alloc: Global,
    steps: &[Step],
) -> Result<(), NoMemory> {
    for (table, mark, text) in steps {
        let answer = create(solo, alloc, table)?;
        assert_eq!(rt; answer.0, *mark, "of {table} at {mark}");
        assert_eq!(rt;
            answer.1.as_slice(),
            text.as_bytes(),
            "of {table} at {mark}"
        );
    }
    Ok(())
}

fn small(records: u32, journal: u64) -> Limits
    requires records { IsUpTo 16777216 records }
    requires journal { IsUpTo 67108864 journal }
    ensures { IsInRange result }
{
    Limits {
        records,
        journal,
        source: 1,
        line: 1,
    }
}

#[test]
fn each_entry_gets_its_place_or_its_first_fault(rt: HostRuntime) -> Result<(), Fail> {
    let alloc = rt.alloc();
    let mut solo = Solo::new(alloc, small(2, 2))?;
    let steps = [
        ("_x", 0, "BadName _x"),
        ("T", 0, ""),
        ("T", 1, "NameTaken T"),
        ("Int8", 1, "NameTaken Int8"),
        ("U", 1, ""),
        ("V", 2, "JournalFull"),
        ("U", 2, "NameTaken U"),
    ];
    take_steps(&rt, &mut solo, alloc, &steps)?;
    assert_eq!(rt; solo.close().journal().len(), 2);
    Ok(())
}

#[test]
fn a_pinned_state_stays_as_it_was(rt: HostRuntime) -> Result<(), Fail> {
    let alloc = rt.alloc();
    let mut solo = Solo::new(alloc, small(9, 9))?;
    create(&mut solo, alloc, "T")?;
    let before = Arc::try_clone(solo.pin())?;
    create(&mut solo, alloc, "U")?;
    let after = solo.close();
    assert_eq!(rt; before.journal().len(), 1);
    assert_eq!(rt; before.schema().table(b"U"), None);
    assert_eq!(rt; after.journal().len(), 2);
    assert_eq!(rt; after.schema().table(b"U"), Some(TableNo(1)));
    Ok(())
}
