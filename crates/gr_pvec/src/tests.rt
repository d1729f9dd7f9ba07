// Each call against a plain vector, at lengths on both sides of a leaf's end.
use super::PVec;
use std::alloc::Global;
use std::process::Abort;
use std::sync::Arc;
use std::test::Fail;

// The numbers below `len`, pushed in place and to a copy by turns.
fn counted(alloc: Global, len: u64) -> Result<PVec<u64>, Fail> {
    let mut made = PVec::new();
    for i in 0..len {
        if made.len() >= 1 << 62 {
            return Ok(made);
        }
        let value = Arc::new(alloc, i)?;
        if i % 2 == 0 {
            made.push(alloc, value)?;
        } else {
            made = made.pushed(alloc, value)?;
        }
    }
    Ok(made)
}

// The first place at which the vector does not hold its own number, or its length.
fn first_other(vector: &PVec<u64>) -> u64 {
    for i in 0..vector.len() {
        if vector.get(i) != Some(&i) {
            return i;
        }
    }
    vector.len()
}

// How far a walk from `from` on gives each place's own number.
fn walked(vector: &PVec<u64>, from: u64) -> u64 {
    let mut i = from;
    for item in vector.iter(from.min(vector.len()), vector.len()) {
        if *item != i {
            return i;
        }
        i = i.wrapping_add(1);
    }
    i
}

fn holds(rt: &impl Abort, len: u64, alloc: Global) -> Result<(), Fail> {
    let vector = counted(alloc, len)?;
    assert_eq!(rt; first_other(&vector), len, "looked up, of {len}");
    assert_eq!(rt; walked(&vector, len / 3), len, "walked, of {len}");
    Ok(())
}

#[test]
fn places_hold_their_numbers(rt: HostRuntime) -> Result<(), Fail> {
    for len in [0, 1, 31, 32, 33, 1_000, 100_000] {
        holds(&rt, len, rt.alloc())?;
    }
    Ok(())
}

// The length up to which the old vector holds its numbers, after one of two copies was changed at `i`.
fn after_changes(alloc: Global, len: u64, i: u64) -> Result<u64, Fail> {
    let old = counted(alloc, len)?;
    if i >= old.len() {
        return Ok(len);
    }
    let changed = old.with(alloc, i, Arc::new(alloc, 0)?)?;
    let mut edited = old.try_clone()?;
    edited.set(alloc, i, Arc::new(alloc, 0)?)?;
    if changed.get(i) == Some(&0) && edited.get(i) == Some(&0) {
        Ok(first_other(&old))
    } else {
        Ok(i)
    }
}

#[test]
fn a_changed_copy_leaves_the_old_one(rt: HostRuntime) -> Result<(), Fail> {
    for i in [1, 31, 32, 1_023, 1_024, 32_799, 39_999] {
        assert_eq!(rt;
            after_changes(rt.alloc(), 40_000, i)?,
            40_000,
            "changed at {i}"
        );
    }
    Ok(())
}

fn shared<T: Send + Sync>(_value: &T) {}

#[test]
fn threads_may_share_it(rt: HostRuntime) -> Result<(), Fail> {
    shared(&counted(rt.alloc(), 40)?);
    Ok(())
}
