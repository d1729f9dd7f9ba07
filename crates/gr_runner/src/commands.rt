// One session: its source is read, and its commands are run.
ghost use Rattle.std.specs.Prelude.{◌≡◌, ◌<◌, ◌≤◌, ◌^◌, ◌-◌, [], false, length, min, IfOk};
ghost use Rattle.std.specs.List.{AllByRecursion};
ghost use Rattle.gr_base.specs.Limits.{IsInRange};
ghost use Rattle.gr_cmdline.specs.Commands.{IsItem};
ghost use Rattle.gr_session.specs.Step.{opened_at};
ghost use Rattle.gr_runner.specs.Progress.{IsReady, RunsOne, RunsPiece, RunsSource};
ghost use Rattle.gr_runner.specs.Served.{Serves};

use super::{Dones, End, SessionLog};
use gr_base::{Limits, NoMemory, SessionNo};
use gr_cmdline::{Item, Next, Reader};
use gr_outside::{Failed, Source};
use gr_publish::Solo;
use gr_session::{Done, Session, step_solo};
use std::alloc::Global;

// How many bytes are asked of a source at once.
const PIECE: usize = 65_536;

// Runs the session of one source, of which no entry stands yet.
pub(crate) fn run_session<S: Source + Drop>(
    alloc: Global,
    limits: Limits,
    number: SessionNo,
    phase: u32,
    solo: &mut Solo,
    source: S,
) -> SessionLog
    requires limits { limits ≡ solo.old.limits }
    requires range { IsInRange limits }
    requires countable { (S.told source).faults < 2 ^ 64 - 1 }
    requires first { AllByRecursion (λ entry. entry.session.0 < number.0) solo.old.journal }
    ensures limits { solo.new.limits ≡ solo.old.limits }
    ensures serves { Serves limits (S.told source) number.0 phase solo.old.journal solo.new.journal result }
{
    let opened = solo.pin().journal().len();
    let mut done = Vec::new(alloc);
    let end = match Session::open(alloc, number, limits, opened) {
        Ok(mut session) => run_source(alloc, limits, &mut session, solo, source, &mut done),
        Err(NoMemory) => End::NoMemory,
    };
    SessionLog {
        number,
        phase,
        opened,
        done: Dones::from_vec(done),
        end,
    }
}

// Reads a source in pieces, and runs the commands of each as they become whole.
fn run_source<S: Source + Drop>(
    alloc: Global,
    limits: Limits,
    session: &mut Session,
    solo: &mut Solo,
    mut source: S,
    done: &mut Vec<Done>,
) -> End
    requires limits { limits ≡ solo.old.limits }
    requires range { IsInRange limits }
    requires countable { (S.told source).faults < 2 ^ 64 - 1 }
    requires opened { session.old ≡ opened_at limits session.old.session (length solo.old.journal) }
    requires first { AllByRecursion (λ entry. entry.session.0 < session.old.session) solo.old.journal }
    requires none { done.old.items ≡ [] }
    ensures limits { solo.new.limits ≡ solo.old.limits }
    ensures runs { RunsSource limits (S.told source) session.old.session solo.old.journal solo.new.journal done.new.items result }
{
    let Ok(mut room) = piece(alloc) else {
        return End::NoMemory;
    };
    let mut reader = Reader::new(alloc, limits);
    let mut total: u64 = 0;
    loop {
        match source.read(&mut room) {
            Ok(0) => {
                reader.end();
                return match run_commands(alloc, session, solo, &mut reader, done) {
                    Ok(()) => End::Finished,
                    Err(NoMemory) => End::NoMemory,
                };
            }
            Ok(given) => {
                let kept = within(limits.source, total, given);
                total += given as u64;
                let piece = &room[..kept];
                if run_piece(alloc, session, solo, &mut reader, piece, done).is_err() {
                    return End::NoMemory;
                }
                if total > limits.source {
                    return End::SourceTooLong { bytes: total };
                }
            }
            Err(Failed { faults }) => return End::Read { faults },
        }
    }
}

// How many of the bytes given stay within the limit.
fn within(limit: u64, total: u64, given: usize) -> usize
    requires { total ≤ limit }
    ensures { result ≡ min given (limit - total) }
{
    given.min((limit - total) as usize)
}

// Room for the bytes of one read.
fn piece(alloc: Global) -> Result<Vec<u8>, NoMemory>
    ensures { IfOk result (λ room. length room.items ≡ 65536) }
{
    Ok(vec![in alloc; 0; PIECE]?)
}

// Takes a piece of the source, and runs the commands that stand whole now.
fn run_piece(
    alloc: Global,
    session: &mut Session,
    solo: &mut Solo,
    reader: &mut Reader,
    piece: &[u8],
    done: &mut Vec<Done>,
) -> Result<(), NoMemory>
    requires going { reader.old.ended ≡ false }
    requires ready { IsReady session.old solo.old.journal done.old.items }
    requires limits { session.old.limits ≡ solo.old.limits }
    ensures limits { solo.new.limits ≡ solo.old.limits }
    ensures runs { RunsPiece reader.old reader.new piece.now session.old session.new solo.old.journal solo.new.journal done.old.items done.new.items result }
{
    reader.feed(piece)?;
    run_commands(alloc, session, solo, reader, done)
}

// Runs the commands that stand whole in what was fed.
fn run_commands(
    alloc: Global,
    session: &mut Session,
    solo: &mut Solo,
    reader: &mut Reader,
    done: &mut Vec<Done>,
) -> Result<(), NoMemory>
    requires ready { IsReady session.old solo.old.journal done.old.items }
    requires limits { session.old.limits ≡ solo.old.limits }
    ensures limits { solo.new.limits ≡ solo.old.limits }
    ensures runs { RunsPiece reader.old reader.new [] session.old session.new solo.old.journal solo.new.journal done.old.items done.new.items result }
{
    'commands: loop {
        match reader.next_command(alloc) {
            Next::NeedMore | Next::End => return Ok(()),
            Next::NoMemory => return Err(NoMemory),
            Next::Item(item) => run_command(alloc, session, solo, item, done)?,
        }
    }
}

// Runs one command. The place of its reply is taken first.
fn run_command(
    alloc: Global,
    session: &mut Session,
    solo: &mut Solo,
    item: Item,
    done: &mut Vec<Done>,
) -> Result<(), NoMemory>
    requires item { IsItem item }
    requires ready { IsReady session.old solo.old.journal done.old.items }
    requires limits { session.old.limits ≡ solo.old.limits }
    ensures limits { solo.new.limits ≡ solo.old.limits }
    ensures runs { RunsOne session.old session.new solo.old.journal solo.new.journal item done.old.items done.new.items result }
{
    done.reserve(1)?;
    let reply = step_solo(alloc, session, solo, item);
    done.push_reserved(reply);
    if session.ended() {
        return Err(NoMemory);
    }
    Ok(())
}
