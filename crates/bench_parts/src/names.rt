// Look-ups of columns by name in a schema beside a HashMap's.
use super::timed::{Failed, Way, nanos, told};
use gr_base::{Bytes, TableNo};
use gr_schema::{Schema, TableWish};
use std::alloc::Global;
use std::collections::HashMap;
use std::io::Print;
use std::time::CpuClock;

// How many look-ups each name gets.
const ROUNDS: u64 = 16;

fn name(alloc: Global, i: u64) -> Result<Vec<u8>, Failed> {
    let mut made = Vec::new(alloc);
    made.push(b'T')?;
    let mut left = i;
    for _ in 0..6 {
        made.push(b'a' + (left % 16) as u8)?;
        left /= 16;
    }
    Ok(made)
}

fn names(alloc: Global, count: u64) -> Result<Vec<Vec<u8>>, Failed> {
    let mut made = Vec::new(alloc);
    for i in 0..count {
        made.push(name(alloc, i)?)?;
    }
    Ok(made)
}

fn wish(alloc: Global, name: &[u8]) -> Result<TableWish, Failed> {
    Ok(TableWish {
        name: Bytes::from_slice(alloc, name)?,
        flags: Bytes::from_slice(alloc, b"TABLE_NO_KEY")?,
        key_type: Bytes::from_slice(alloc, b"")?,
        tokenizer: Bytes::from_slice(alloc, b"")?,
    })
}

fn schema_of(alloc: Global, names: &[Vec<u8>]) -> Result<Schema, Failed> {
    let mut made = Schema::new();
    for name in names {
        let Ok(def) = made.check_table(alloc, &wish(alloc, name.as_slice())?) else {
            return Ok(made);
        };
        if made.table_count() < 1 << 31 {
            made = made.with_table(alloc, def)?;
        }
    }
    Ok(made)
}

fn map_of(alloc: Global, names: Vec<Vec<u8>>) -> Result<HashMap<Vec<u8>, u32>, Failed> {
    let mut made = HashMap::new(alloc);
    let mut number = 0u32;
    for name in names {
        made.insert(name, number)?;
        number = number.wrapping_add(1);
    }
    Ok(made)
}

fn found_in_map(map: &HashMap<Vec<u8>, u32>, names: &[Vec<u8>]) -> u64 {
    let mut sum = 0u64;
    for name in names {
        if let Some(number) = map.get(name.as_slice()) {
            sum = sum.wrapping_add(u64::from(*number));
        }
    }
    sum
}

fn found_in_schema(schema: &Schema, names: &[Vec<u8>]) -> u64 {
    let mut sum = 0u64;
    for name in names {
        if let Some(TableNo(number)) = schema.table(name.as_slice()) {
            sum = sum.wrapping_add(u64::from(number));
        }
    }
    sum
}

/// Tables looked up by their names, each several times.
pub fn all<R: CpuClock + Print>(rt: &R, alloc: Global, asked: u64) -> Result<(), Failed> {
    let timed = asked > 0;
    let count = if timed { 4_000 } else { 100 };
    let asked_names = names(alloc, count)?;
    let schema = schema_of(alloc, asked_names.as_slice())?;
    let map = map_of(alloc, names(alloc, count)?)?;
    let mut plain_sum = 0u64;
    let start = rt.thread_cpu_time()?;
    for _ in 0..ROUNDS {
        plain_sum = plain_sum.wrapping_add(found_in_map(&map, asked_names.as_slice()));
    }
    let first = Way {
        nanos: nanos(rt, &start)?,
        sum: plain_sum,
    };
    let mut our_sum = 0u64;
    let start = rt.thread_cpu_time()?;
    for _ in 0..ROUNDS {
        our_sum = our_sum.wrapping_add(found_in_schema(&schema, asked_names.as_slice()));
    }
    let second = Way {
        nanos: nanos(rt, &start)?,
        sum: our_sum,
    };
    told(rt, "tables by name", count * ROUNDS, &first, &second, timed)
}
