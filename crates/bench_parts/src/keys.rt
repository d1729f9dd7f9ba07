// Key tables beside std's maps: keys by a hash beside a HashMap, and keys by their text beside a BTreeMap.
use super::timed::{Failed, Way, nanos, told};
use gr_base::{Bytes, KeyTable, RecordId};
use gr_hash_keys::HashKeys;
use gr_key_tree::GrowingKeys;
use gr_pat_keys::PatKeys;
use std::alloc::Global;
use std::collections::{BTreeMap, HashMap};
use std::io::Print;
use std::time::CpuClock;

// Keys of 8 bytes, in an order that has nothing to do with theirs.
fn keys(alloc: Global, count: u64) -> Result<Vec<Vec<u8>>, Failed> {
    let mut made = Vec::new(alloc);
    for i in 0..count {
        made.push(key(alloc, i)?)?;
    }
    Ok(made)
}

fn key(alloc: Global, i: u64) -> Result<Vec<u8>, Failed> {
    let mixed = i.wrapping_mul(11_400_714_819_323_198_485);
    let mut bytes = Vec::new(alloc);
    for byte in mixed.to_be_bytes() {
        bytes.push(byte)?;
    }
    Ok(bytes)
}

fn shared_keys(alloc: Global, keys: &[Vec<u8>]) -> Result<Vec<Bytes>, Failed> {
    let mut made = Vec::new(alloc);
    for key in keys {
        made.push(Bytes::from_slice(alloc, key.as_slice())?)?;
    }
    Ok(made)
}

fn added<T: GrowingKeys>(alloc: Global, table: &mut T, keys: &[Bytes]) -> Result<u64, Failed> {
    let mut id = 0u32;
    for key in keys {
        id = id.wrapping_add(1);
        table.find_or_add(alloc, key, RecordId(id))?;
    }
    Ok(u64::from(id))
}

fn found<T: KeyTable>(table: &T, keys: &[Bytes]) -> u64 {
    let mut sum = 0u64;
    for key in keys {
        if let Some(id) = table.find(key.as_slice()) {
            sum = sum.wrapping_add(u64::from(id.0));
        }
    }
    sum
}

fn hashed(alloc: Global, keys: Vec<Vec<u8>>) -> Result<HashMap<Vec<u8>, u32>, Failed> {
    let mut made = HashMap::new(alloc);
    let mut id = 0u32;
    for key in keys {
        id = id.wrapping_add(1);
        made.insert(key, id)?;
    }
    Ok(made)
}

fn ordered(alloc: Global, keys: Vec<Vec<u8>>) -> Result<BTreeMap<Vec<u8>, u32>, Failed> {
    let mut made = BTreeMap::new(alloc);
    let mut id = 0u32;
    for key in keys {
        id = id.wrapping_add(1);
        made.insert(key, id)?;
    }
    Ok(made)
}

fn hashed_found(made: &HashMap<Vec<u8>, u32>, keys: &[Bytes]) -> u64 {
    let mut sum = 0u64;
    for key in keys {
        if let Some(id) = made.get(key.as_slice()) {
            sum = sum.wrapping_add(u64::from(*id));
        }
    }
    sum
}

fn ordered_found(made: &BTreeMap<Vec<u8>, u32>, keys: &[Bytes]) -> u64 {
    let mut sum = 0u64;
    for key in keys {
        if let Some(id) = made.get(key.as_slice()) {
            sum = sum.wrapping_add(u64::from(*id));
        }
    }
    sum
}

/// Keys found or added, and then looked up, once for each kind.
pub fn all<R: CpuClock + Print>(rt: &R, alloc: Global, asked: u64) -> Result<(), Failed> {
    let timed = asked > 0;
    let count = if timed { asked } else { 1_000 };
    by_hash(rt, alloc, count, timed)?;
    by_text(rt, alloc, count, timed)
}

fn by_hash<R: CpuClock + Print>(
    rt: &R,
    alloc: Global,
    count: u64,
    timed: bool,
) -> Result<(), Failed> {
    let plain = keys(alloc, count)?;
    let ours = shared_keys(alloc, plain.as_slice())?;
    let start = rt.thread_cpu_time()?;
    let map = hashed(alloc, plain)?;
    let first = Way {
        nanos: nanos(rt, &start)?,
        sum: count,
    };
    let mut table = HashKeys::new();
    let start = rt.thread_cpu_time()?;
    let sum = added(alloc, &mut table, ours.as_slice())?;
    let second = Way {
        nanos: nanos(rt, &start)?,
        sum,
    };
    told(rt, "find or add by hash", count, &first, &second, timed)?;
    let start = rt.thread_cpu_time()?;
    let sum = hashed_found(&map, ours.as_slice());
    let first = Way {
        nanos: nanos(rt, &start)?,
        sum,
    };
    let start = rt.thread_cpu_time()?;
    let sum = found(&table, ours.as_slice());
    let second = Way {
        nanos: nanos(rt, &start)?,
        sum,
    };
    told(rt, "find by hash", count, &first, &second, timed)
}

fn by_text<R: CpuClock + Print>(
    rt: &R,
    alloc: Global,
    count: u64,
    timed: bool,
) -> Result<(), Failed> {
    let plain = keys(alloc, count)?;
    let ours = shared_keys(alloc, plain.as_slice())?;
    let start = rt.thread_cpu_time()?;
    let map = ordered(alloc, plain)?;
    let first = Way {
        nanos: nanos(rt, &start)?,
        sum: count,
    };
    let mut table = PatKeys::new();
    let start = rt.thread_cpu_time()?;
    let sum = added(alloc, &mut table, ours.as_slice())?;
    let second = Way {
        nanos: nanos(rt, &start)?,
        sum,
    };
    told(rt, "find or add by text", count, &first, &second, timed)?;
    let start = rt.thread_cpu_time()?;
    let sum = ordered_found(&map, ours.as_slice());
    let first = Way {
        nanos: nanos(rt, &start)?,
        sum,
    };
    let start = rt.thread_cpu_time()?;
    let sum = found(&table, ours.as_slice());
    let second = Way {
        nanos: nanos(rt, &start)?,
        sum,
    };
    told(rt, "find by text", count, &first, &second, timed)
}
