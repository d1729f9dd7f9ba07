// Masks of comparisons beside a plain sum of the same numbers: in cache, and over many.
use super::timed::{Failed, Way, nanos, told};
use gr_base::Cmp;
use gr_lanes::mask_i64;
use std::alloc::Global;
use std::io::Print;
use std::time::CpuClock;

// 32 KB of numbers.
const CACHED: u64 = 4096;

fn numbers(alloc: Global, count: u64) -> Result<Vec<i64>, Failed> {
    let mut made = Vec::new(alloc);
    for i in 0..count {
        made.push((i % 1000) as i64)?;
    }
    Ok(made)
}

fn sum_of(values: &[i64]) -> i64 {
    let mut sum = 0i64;
    for value in values {
        sum = sum.wrapping_add(*value);
    }
    sum
}

// Which of the values are below 500, counted by masks of blocks of 64.
fn masked(values: &[i64], cmp: Cmp) -> u64 {
    let mut met = 0u64;
    for block in values.chunks(64) {
        met = met.wrapping_add(u64::from(mask_i64(block, cmp, 500).count_ones()));
    }
    met
}

fn counted(values: &[i64]) -> u64 {
    let mut met = 0u64;
    for value in values {
        if *value < 500 {
            met = met.wrapping_add(1);
        }
    }
    met
}

// The values of a round: each begins elsewhere, so that no round can be told from the one before.
fn part(values: &[i64], round: u64) -> &[i64] {
    let from = (round % 8 * 64) as usize;
    values.split_at(from.min(values.len())).1
}

fn summed(values: &[i64], rounds: u64) -> i64 {
    let mut sum = 0i64;
    for round in 0..rounds {
        sum = sum.wrapping_add(sum_of(part(values, round)));
    }
    sum
}

fn met(values: &[i64], rounds: u64) -> u64 {
    let mut met = 0u64;
    for round in 0..rounds {
        met = met.wrapping_add(masked(part(values, round), Cmp::Lt));
    }
    met
}

// Counts by masks beside plain sums, over the same numbers so many times.
fn measured<R: CpuClock + Print>(
    rt: &R,
    name: &str,
    values: &[i64],
    rounds: u64,
    timed: bool,
) -> Result<(), Failed> {
    let wanted = met(values, 1);
    let start = rt.thread_cpu_time()?;
    let sum = summed(values, rounds);
    let first = Way {
        nanos: nanos(rt, &start)?,
        sum: wanted,
    };
    let start = rt.thread_cpu_time()?;
    let all = met(values, rounds);
    let second = Way {
        nanos: nanos(rt, &start)?,
        sum: counted(values),
    };
    if timed {
        println!(rt; "{name}: the sum is {sum}, and {all} are met")?;
    }
    let steps = (values.len() as u64).saturating_mul(rounds);
    told(rt, name, steps, &first, &second, timed)
}

/// Masks in cache, and over so many numbers. A number has 8 bytes: 320 ps a step are 25 GB/s.
pub fn all<R: CpuClock + Print>(rt: &R, alloc: Global, asked: u64) -> Result<(), Failed> {
    let timed = asked > 0;
    let cached = numbers(alloc, CACHED)?;
    let rounds = if timed { 100_000 } else { 1 };
    measured(rt, "masks in cache", cached.as_slice(), rounds, timed)?;
    let count = if timed {
        asked.saturating_mul(16)
    } else {
        1_000
    };
    let many = numbers(alloc, count)?;
    let rounds = if timed { 10 } else { 1 };
    measured(rt, "masks over many", many.as_slice(), rounds, timed)
}
