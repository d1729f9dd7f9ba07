// What a way of making a list took, printed beside another's.
use gr_base::{NoMemory, RecordId};
use std::alloc::{AllocError, AllocFailed};
use std::io;
use std::io::Print;
use std::time::{CpuClock, Duration};

/// Why nothing was measured.
#[derive(Debug, Drop)]
pub enum Failed {
    /// No memory was found.
    NoMemory,
    /// The clock or standard output failed.
    Outside,
}

impl From<NoMemory> for Failed {
    fn from(_none: NoMemory) -> Failed {
        Failed::NoMemory
    }
}

impl From<AllocError> for Failed {
    fn from(_none: AllocError) -> Failed {
        Failed::NoMemory
    }
}

impl<T: Drop> From<AllocFailed<T>> for Failed {
    fn from(_none: AllocFailed<T>) -> Failed {
        Failed::NoMemory
    }
}

impl From<io::Error> for Failed {
    fn from(_error: io::Error) -> Failed {
        Failed::Outside
    }
}

/// The nanoseconds that this thread has used since then; other programs on the machine do not count.
pub fn nanos<R: CpuClock>(rt: &R, since: &Duration) -> Result<u64, Failed> {
    let Some(used) = rt.thread_cpu_time()?.checked_sub(*since) else {
        return Ok(0);
    };
    Ok(u64::try_from(used.as_nanos()).unwrap_or(u64::MAX))
}

/// What a way took in all, and a sum over what it made.
#[derive(Drop)]
pub struct Way {
    /// Nanoseconds in all.
    pub nanos: u64,
    /// What is to be the same for both ways.
    pub sum: u64,
}

/// A number that tells lists of hits apart, but for chance.
pub fn sum_of(hits: &[(RecordId, u32)]) -> u64 {
    let mut sum = hits.len() as u64;
    for hit in hits {
        sum = sum
            .wrapping_mul(31)
            .wrapping_add(u64::from(hit.0.0))
            .wrapping_mul(31)
            .wrapping_add(u64::from(hit.1));
    }
    sum
}

/// A line for two ways over so many hits in all. Times are told only where they were asked for.
pub fn told<R: Print>(
    rt: &R,
    name: &str,
    hits: u64,
    plain: &Way,
    ours: &Way,
    timed: bool,
) -> Result<(), Failed> {
    let same = plain.sum == ours.sum;
    if !timed {
        println!(rt; "{name}: same {same}")?;
        return Ok(());
    }
    let first = picoseconds(plain, hits);
    let second = picoseconds(ours, hits);
    println!(rt; "{name}: same {same}, plain {first} ps, ours {second} ps a hit")?;
    Ok(())
}

// Of one hit.
fn picoseconds(way: &Way, hits: u64) -> u64 {
    way.nanos.saturating_mul(1000) / hits.max(1)
}
