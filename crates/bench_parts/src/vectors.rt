// The persistent vector beside std's vector of shared elements.
use super::timed::{Failed, Way, nanos, told};
use gr_pvec::PVec;
use std::alloc::Global;
use std::io::Print;
use std::sync::Arc;
use std::time::CpuClock;

fn plain_push(alloc: Global, count: u64) -> Result<Vec<Arc<u64>>, Failed> {
    let mut made = Vec::new(alloc);
    for i in 0..count {
        made.push(Arc::new(alloc, i)?)?;
    }
    Ok(made)
}

fn our_push(alloc: Global, count: u64) -> Result<PVec<u64>, Failed> {
    let mut made = PVec::new();
    for i in 0..count {
        if made.len() < 1 << 62 {
            made.push(alloc, Arc::new(alloc, i)?)?;
        }
    }
    Ok(made)
}

fn next(seed: u64) -> u64 {
    seed.wrapping_mul(6_364_136_223_846_793_005)
        .wrapping_add(1_442_695_040_888_963_407)
}

fn plain_get(made: &[Arc<u64>], count: u64) -> u64 {
    let mut seed = 1u64;
    let mut sum = 0u64;
    for _ in 0..count {
        seed = next(seed);
        let i = (seed >> 33) % count.max(1);
        if let Some(item) = made.get(i as usize) {
            sum = sum.wrapping_add(**item);
        }
    }
    sum
}

fn our_get(made: &PVec<u64>, count: u64) -> u64 {
    let mut seed = 1u64;
    let mut sum = 0u64;
    for _ in 0..count {
        seed = next(seed);
        let i = (seed >> 33) % count.max(1);
        if let Some(item) = made.get(i) {
            sum = sum.wrapping_add(*item);
        }
    }
    sum
}

fn plain_walk(made: &[Arc<u64>]) -> u64 {
    let mut sum = 0u64;
    for item in made {
        sum = sum.wrapping_add(**item);
    }
    sum
}

fn our_walk(made: &PVec<u64>) -> u64 {
    let mut sum = 0u64;
    for item in made.iter(0, made.len()) {
        sum = sum.wrapping_add(*item);
    }
    sum
}

/// Pushes, look-ups by chance and walks, once for both.
pub fn all<R: CpuClock + Print>(rt: &R, alloc: Global, asked: u64) -> Result<(), Failed> {
    let timed = asked > 0;
    let count = if timed { asked } else { 1_000 };
    let start = rt.thread_cpu_time()?;
    let plain = plain_push(alloc, count)?;
    let first = Way {
        nanos: nanos(rt, &start)?,
        sum: plain.len() as u64,
    };
    let start = rt.thread_cpu_time()?;
    let ours = our_push(alloc, count)?;
    let second = Way {
        nanos: nanos(rt, &start)?,
        sum: ours.len(),
    };
    told(rt, "push", count, &first, &second, timed)?;
    looked_up(rt, plain.as_slice(), &ours, count, timed)?;
    gone_over(rt, plain.as_slice(), &ours, timed)
}

fn looked_up<R: CpuClock + Print>(
    rt: &R,
    plain: &[Arc<u64>],
    ours: &PVec<u64>,
    count: u64,
    timed: bool,
) -> Result<(), Failed> {
    let start = rt.thread_cpu_time()?;
    let sum = plain_get(plain, count);
    let first = Way {
        nanos: nanos(rt, &start)?,
        sum,
    };
    let start = rt.thread_cpu_time()?;
    let sum = our_get(ours, count);
    let second = Way {
        nanos: nanos(rt, &start)?,
        sum,
    };
    told(rt, "get", count, &first, &second, timed)
}

fn gone_over<R: CpuClock + Print>(
    rt: &R,
    plain: &[Arc<u64>],
    ours: &PVec<u64>,
    timed: bool,
) -> Result<(), Failed> {
    let start = rt.thread_cpu_time()?;
    let sum = plain_walk(plain);
    let first = Way {
        nanos: nanos(rt, &start)?,
        sum,
    };
    let start = rt.thread_cpu_time()?;
    let sum = our_walk(ours);
    let second = Way {
        nanos: nanos(rt, &start)?,
        sum,
    };
    told(rt, "in order", ours.len(), &first, &second, timed)
}
