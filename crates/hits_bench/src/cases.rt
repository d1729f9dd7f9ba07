// The cases: two lists of one length, of which a half, a tenth or nearly all is common, and a short list beside a long one.
use super::lists::by_chance;
use super::plain;
use super::timed::{Failed, Way, nanos, sum_of, told};
use gr_hits::{HitList, both, either, without};
use std::alloc::Global;
use std::io::Print;
use std::time::CpuClock;

// What two lists make.
#[derive(Clone, Copy)]
enum Made {
    Both,
    Either,
    Without,
}

fn plain_way<R: CpuClock>(
    rt: &R,
    alloc: Global,
    made: Made,
    left: &HitList,
    right: &HitList,
) -> Result<Way, Failed> {
    let left = left.as_slice();
    let right = right.as_slice();
    let start = rt.thread_cpu_time()?;
    let hits = match made {
        Made::Both => plain::both(alloc, left, right)?,
        Made::Either => plain::either(alloc, left, right)?,
        Made::Without => plain::without(alloc, left, right)?,
    };
    Ok(Way {
        nanos: nanos(rt, &start)?,
        sum: sum_of(hits.as_slice()),
    })
}

fn our_way<R: CpuClock>(
    rt: &R,
    alloc: Global,
    made: Made,
    left: &HitList,
    right: &HitList,
) -> Result<Way, Failed> {
    let start = rt.thread_cpu_time()?;
    let hits = match made {
        Made::Both => both(alloc, left, right)?,
        Made::Either => either(alloc, left, right)?,
        Made::Without => without(alloc, left, right)?,
    };
    Ok(Way {
        nanos: nanos(rt, &start)?,
        sum: sum_of(hits.as_slice()),
    })
}

// A line for each of the three; times are told by the hit of both lists together.
fn measured<R: CpuClock + Print>(
    rt: &R,
    alloc: Global,
    name: &str,
    left: &HitList,
    right: &HitList,
    timed: bool,
) -> Result<(), Failed> {
    let hits = left.len().saturating_add(right.len());
    println!(rt; "{name}")?;
    for (word, made) in [
        ("both", Made::Both),
        ("either", Made::Either),
        ("without", Made::Without),
    ] {
        let first = plain_way(rt, alloc, made, left, right)?;
        let second = our_way(rt, alloc, made, left, right)?;
        told(rt, word, hits, &first, &second, timed)?;
    }
    Ok(())
}

/// All cases over lists of so many hits.
pub fn all<R: CpuClock + Print>(
    rt: &R,
    alloc: Global,
    count: u32,
    timed: bool,
) -> Result<(), Failed> {
    let dense = by_chance(alloc, count, 3, 1)?;
    let other = by_chance(alloc, count, 3, 2)?;
    measured(rt, alloc, "half in common", &dense, &other, timed)?;
    let sparse = by_chance(alloc, count, 20, 3)?;
    let apart = by_chance(alloc, count, 20, 4)?;
    measured(rt, alloc, "a tenth in common", &sparse, &apart, timed)?;
    let same = by_chance(alloc, count, 3, 1)?;
    measured(rt, alloc, "all in common", &dense, &same, timed)?;
    let few = by_chance(alloc, count / 1000, 2000, 5)?;
    measured(rt, alloc, "a thousandth beside all", &few, &dense, timed)?;
    measured(rt, alloc, "all beside a thousandth", &dense, &few, timed)
}
