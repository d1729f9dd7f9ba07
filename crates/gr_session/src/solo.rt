// A session's commands on one thread.
ghost use Rattle.std.specs.Prelude.{◌≡◌, ◌≤◌, ◌<◌, ◌^◌, ◌-◌, false, None, length};
ghost use Rattle.gr_cmdline.specs.Commands.{IsItem};
ghost use Rattle.gr_session.specs.Solo.{Steps};

use crate::{Done, Session, Step};
use gr_cmdline::Item;
use gr_publish::Solo;
use std::alloc::Global;

#[cfg(test)]
mod tests;

/// Runs one command on one thread, or refuses one line.
pub fn step_solo(alloc: Global, session: &mut Session, solo: &mut Solo, item: Item) -> Done
    requires item { IsItem item }
    requires running { session.old.ended ≡ false }
    requires idle { session.old.going ≡ None }
    requires countable { session.old.command < 2 ^ 64 - 1 }
    requires behind { session.old.mark ≤ length solo.old.journal }
    requires limits { session.old.limits ≡ solo.old.limits }
    ensures { Steps session.old session.new solo.old solo.new item result }
{
    // That the journal was accepted is known from here on.
    let _length = solo.pin().journal().len();
    let mut step = session.begin(alloc, solo.pin(), item);
    loop {
        match step {
            Step::Done(done) => return done,
            Step::Publish(entry) => {
                let answer = solo.publish(alloc, entry);
                // That the longer journal was accepted, and that its length is a number of 64 bits, is known from here on.
                let _length = solo.pin().journal().len();
                step = session.answered(alloc, answer);
            }
        }
    }
}
