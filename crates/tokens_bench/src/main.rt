// tokens_bench SIZE: how long the places of a phrase take beside one pass of memmem, in one run. With no word it goes over small texts, and says only whether the counts are those of a plain count.
#![tactic(auto)]

mod cases;
mod texts;
mod timed;

use std::env;
use timed::Failed;

// The size of the texts without a word.
const SMALL: usize = 3000;

fn main(rt: HostRuntime) -> Result<(), Failed> {
    let words: Vec<String> = env::args(&rt)?.skip(1).collect(rt.alloc())?;
    let asked = match words.first() {
        Some(word) => word.parse::<u32>().unwrap_or(0) as usize,
        None => 0,
    };
    let size = if asked == 0 { SMALL } else { asked };
    cases::all(&rt, rt.alloc(), size, asked > 0)?;
    Ok(())
}
