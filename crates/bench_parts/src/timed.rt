// What a way of doing something took, printed beside another's.
use std::alloc::{AllocError, AllocFailed};
use std::fmt::Display;
use std::io;
use std::io::Print;
use std::time::{CpuClock, Duration};

/// Why nothing was measured.
#[derive(Debug, Drop)]
pub enum Failed {
    /// No memory was found.
    NoMemory,
    /// The clock or standard output failed.
    Outside,
}

impl From<gr_base::NoMemory> for Failed {
    fn from(_none: gr_base::NoMemory) -> Failed {
        Failed::NoMemory
    }
}

impl From<AllocError> for Failed {
    fn from(_none: AllocError) -> Failed {
        Failed::NoMemory
    }
}

impl<T: Drop> From<AllocFailed<T>> for Failed {
    fn from(_none: AllocFailed<T>) -> Failed {
        Failed::NoMemory
    }
}

impl From<io::Error> for Failed {
    fn from(_error: io::Error) -> Failed {
        Failed::Outside
    }
}

/// The nanoseconds that this thread has used since then; other programs on the machine do not count.
pub fn nanos<R: CpuClock>(rt: &R, since: &Duration) -> Result<u64, Failed> {
    let Some(used) = rt.thread_cpu_time()?.checked_sub(*since) else {
        return Ok(0);
    };
    Ok(u64::try_from(used.as_nanos()).unwrap_or(u64::MAX))
}

/// What one way took, and what it came to.
#[derive(Drop)]
pub struct Way {
    /// Nanoseconds in all.
    pub nanos: u64,
    /// What is to be the same for both ways.
    pub sum: u64,
}

/// A line for two ways of so many steps. Times are told only where they were asked for.
pub fn told<R: Print>(
    rt: &R,
    name: &str,
    steps: u64,
    plain: &Way,
    ours: &Way,
    timed: bool,
) -> Result<(), Failed> {
    let same = plain.sum == ours.sum;
    if !timed {
        println!(rt; "{name}: same {same}")?;
        return Ok(());
    }
    let first = picoseconds(plain, steps);
    let second = picoseconds(ours, steps);
    println!(rt; "{name}: same {same}, plain {first} ps, ours {second} ps a step")?;
    Ok(())
}

// Of one step.
fn picoseconds(way: &Way, steps: u64) -> u64 {
    way.nanos.saturating_mul(1000) / steps.max(1)
}
