// hits_bench COUNT: how long sums and differences of lists of hits take, beside plain loops over both lists, in one run. With no word it goes over short lists, and says only whether both ways make the same.
#![tactic(auto)]

mod cases;
mod lists;
mod plain;
mod timed;

use std::env;
use timed::Failed;

// The hits of the lists without a word.
const SHORT: u32 = 2000;

fn main(rt: HostRuntime) -> Result<(), Failed> {
    let words: Vec<String> = env::args(&rt)?.skip(1).collect(rt.alloc())?;
    let asked = match words.first() {
        Some(word) => word.parse::<u32>().unwrap_or(0),
        None => 0,
    };
    let count = if asked == 0 { SHORT } else { asked };
    cases::all(&rt, rt.alloc(), count, asked > 0)
}
