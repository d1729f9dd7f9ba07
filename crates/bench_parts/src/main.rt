// bench_parts COUNT: how fast vectors and lanes are beside std's, in one run. With no word it goes over a few elements, and prints no times.
#![tactic(auto)]

mod keys;
mod lanes;
mod names;
mod timed;
mod vectors;

use std::env;
use timed::Failed;

fn main(rt: HostRuntime) -> Result<(), Failed> {
    let words: Vec<String> = env::args(&rt)?.skip(1).collect(rt.alloc())?;
    let count = match words.first() {
        Some(word) => word.parse::<u64>().unwrap_or(0),
        None => 0,
    };
    vectors::all(&rt, rt.alloc(), count)?;
    lanes::all(&rt, rt.alloc(), count)?;
    keys::all(&rt, rt.alloc(), count)?;
    names::all(&rt, rt.alloc(), count)?;
    Ok(())
}
