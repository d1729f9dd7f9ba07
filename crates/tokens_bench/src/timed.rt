// What a count took, printed beside one pass of memmem.
use gr_tokens::How;
use std::alloc::{AllocError, AllocFailed};
use std::io;
use std::io::Print;
use std::str::Utf8Error;
use std::time::{CpuClock, Duration};

/// Why nothing was measured.
#[derive(Debug, Drop)]
pub enum Failed {
    /// No memory was found.
    NoMemory,
    /// The clock or standard output failed, or a text is none.
    Outside,
}

impl From<AllocError> for Failed {
    fn from(_none: AllocError) -> Failed {
        Failed::NoMemory
    }
}

impl<T: Drop> From<AllocFailed<T>> for Failed {
    fn from(_none: AllocFailed<T>) -> Failed {
        Failed::NoMemory
    }
}

impl From<io::Error> for Failed {
    fn from(_error: io::Error) -> Failed {
        Failed::Outside
    }
}

impl From<Utf8Error> for Failed {
    fn from(_error: Utf8Error) -> Failed {
        Failed::Outside
    }
}

/// The nanoseconds that this thread has used since then; other programs on the machine do not count.
pub fn nanos<R: CpuClock>(rt: &R, since: &Duration) -> Result<u64, Failed> {
    let Some(used) = rt.thread_cpu_time()?.checked_sub(*since) else {
        return Ok(0);
    };
    Ok(u64::try_from(used.as_nanos()).unwrap_or(u64::MAX))
}

/// What a case took in all its rounds.
#[derive(Drop)]
pub struct Taken {
    /// Bytes of the text in one round.
    pub bytes: u64,
    pub rounds: u64,
    /// Nanoseconds of memmem.
    pub plain: u64,
    /// Nanoseconds of our count.
    pub ours: u64,
}

/// A line for a case: picoseconds a byte, and the ratio to memmem in hundredths.
pub fn told<R: Print>(
    rt: &R,
    how: How,
    name: &str,
    places: u32,
    taken: &Taken,
) -> Result<(), Failed> {
    let steps = taken.bytes.saturating_mul(taken.rounds).max(1);
    let plain = taken.plain.saturating_mul(1000) / steps;
    let ours = taken.ours.saturating_mul(1000) / steps;
    let ratio = taken.ours.saturating_mul(100) / taken.plain.max(1);
    println!(rt;
        "{how:?} {name}: {places} places, {ours} ps a byte, memmem {plain} ps a byte, ratio {ratio} %"
    )?;
    Ok(())
}
