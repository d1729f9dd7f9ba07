// A run on one thread: the sessions of each phase one after the other, in file order.
ghost use Rattle.std.specs.Prelude.{◌≡◌, ◌+◌, ◌<◌, ◌≤◌, ◌-◌, ◌^◌, [], Some, map, length, vec_capacity, IfOk};
ghost use Rattle.std.specs.Arc.{arc_value};
ghost use Rattle.std.specs.Global.{Global};
ghost use Rattle.std.specs.List.{AllByRecursion};
ghost use Rattle.std.specs.declared.sync.Arc.{Arc};
ghost use Rattle.gr_base.specs.Limits.{IsInRange};
ghost use Rattle.gr_root.specs.Root.{Rooted};
ghost use Rattle.gr_runner.specs.Complete.{IsCompleteRun};
ghost use Rattle.gr_runner.specs.Course.{EndsPhase, RunsPhase, status_of_end};
ghost use Rattle.gr_runner.specs.History.{sources_of};
ghost use Rattle.gr_runner.specs.Run.{Run, first_unfinished};

use super::commands::run_session;
use super::write::write_logs;
use super::{End, Report, SessionLog, SessionLogs, Status};
use gr_base::{Limits, NoMemory, SessionNo};
use gr_outside::{Sink, Source};
use gr_publish::Solo;
use gr_root::Root;
use std::alloc::Global;
use std::sync::Arc;

/// Runs the phases one after the other on this thread, and writes the replies of each after it.
pub fn run_serial<S: Source + Drop, K: Sink>(
    alloc: Global,
    limits: Limits,
    phases: Vec<Vec<S>>,
    sink: &mut K,
) -> Report
    requires limits { IsInRange limits }
    requires phases { length phases.items < 2 ^ 31 }
    requires sources { length (sources_of (map (λ sources. sources.items) phases.items)) < 2 ^ 31 }
    requires sources_countable { AllByRecursion (λ source. (S.told source).faults < 2 ^ 64 - 1) (sources_of (map (λ sources. sources.items) phases.items)) }
    requires sink_countable { (K.taken sink.old).faults < 2 ^ 64 - 1 }
    ensures run { Run S.told limits (map (λ sources. sources.items) phases.items) result
        (K.taken sink.old) (K.taken sink.new) }
    ensures complete { IsCompleteRun S.told limits (map (λ sources. sources.items) phases.items) result
        (K.taken sink.old) (K.taken sink.new) }
{
    run_all(alloc, limits, phases, sink)
}

// The same run, of which that it is complete follows.
fn run_all<S: Source + Drop, K: Sink>(
    alloc: Global,
    limits: Limits,
    phases: Vec<Vec<S>>,
    sink: &mut K,
) -> Report
    requires limits { IsInRange limits }
    requires phases { length phases.items < 2 ^ 31 }
    requires sources { length (sources_of (map (λ sources. sources.items) phases.items)) < 2 ^ 31 }
    requires sources_countable { AllByRecursion (λ source. (S.told source).faults < 2 ^ 64 - 1) (sources_of (map (λ sources. sources.items) phases.items)) }
    requires sink_countable { (K.taken sink.old).faults < 2 ^ 64 - 1 }
    ensures { Run S.told limits (map (λ sources. sources.items) phases.items) result
        (K.taken sink.old) (K.taken sink.new) }
{
    let Ok(mut solo) = Solo::new(alloc, limits) else {
        return report(Status::NoMemory, None, Vec::new(alloc));
    };
    let Ok(mut logs) = room_for_logs(alloc, &phases) else {
        return report(Status::NoMemory, Some(solo.close()), Vec::new(alloc));
    };
    let status = run_phases(alloc, limits, phases, &mut solo, &mut logs, sink);
    report(status, Some(solo.close()), logs)
}

fn report(status: Status, root: Option<Arc<Root>>, logs: Vec<SessionLog>) -> Report
    ensures { result ≡ record { status = status; root = root; sessions = logs.items } }
{
    Report {
        status,
        root,
        sessions: SessionLogs::from_vec(logs),
    }
}

// Room for the log of each session.
fn room_for_logs<S>(alloc: Global, phases: &[Vec<S>]) -> Result<Vec<SessionLog>, NoMemory>
    requires { length (sources_of (map (λ sources. sources.items) phases.now)) < 2 ^ 31 }
    ensures none { IfOk result (λ logs. logs.items ≡ []) }
    ensures room { IfOk result (λ logs. length (sources_of (map (λ sources. sources.items) phases.now)) ≤ vec_capacity logs) }
{
    let mut sources = 0;
    for phase in phases {
        sources += phase.len();
    }
    Ok(Vec::with_capacity(alloc, sources)?)
}

// Runs phases up to the first that does not end well.
fn run_phases<S: Source + Drop, K: Sink>(
    alloc: Global,
    limits: Limits,
    phases: Vec<Vec<S>>,
    solo: &mut Solo,
    logs: &mut Vec<SessionLog>,
    sink: &mut K,
) -> Status
    requires limits { limits ≡ solo.old.limits }
    requires range { IsInRange limits }
    requires phases { length phases.items < 2 ^ 31 }
    requires sources { length (sources_of (map (λ sources. sources.items) phases.items)) < 2 ^ 31 }
    requires sources_countable { AllByRecursion (λ source. (S.told source).faults < 2 ^ 64 - 1) (sources_of (map (λ sources. sources.items) phases.items)) }
    requires sink_countable { (K.taken sink.old).faults < 2 ^ 64 - 1 }
    requires no_entries { solo.old.journal ≡ [] }
    requires no_logs { logs.old.items ≡ [] }
    requires room { length (sources_of (map (λ sources. sources.items) phases.items)) ≤ vec_capacity logs.old }
    ensures { (root : Arc Rooted Global) → (arc_value root).journal ≡ solo.new.journal
        → Run S.told limits (map (λ sources. sources.items) phases.items)
        (record { status = result; root = Some root; sessions = logs.new.items })
        (K.taken sink.old) (K.taken sink.new) }
{
    let mut phase = 0;
    for sources in phases {
        phase += 1;
        match run_and_write(alloc, limits, phase, sources, solo, logs, sink) {
            Status::Ok => {}
            ended => return ended,
        }
    }
    Status::Ok
}

// Runs one phase and writes its texts, and says how it ended.
fn run_and_write<S: Source + Drop, K: Sink>(
    alloc: Global,
    limits: Limits,
    phase: u32,
    sources: Vec<S>,
    solo: &mut Solo,
    logs: &mut Vec<SessionLog>,
    sink: &mut K,
) -> Status
    requires limits { limits ≡ solo.old.limits }
    requires range { IsInRange limits }
    requires sources { length logs.old.items + length sources.items < 2 ^ 31 }
    requires room { length logs.old.items + length sources.items ≤ vec_capacity logs.old }
    requires sources_countable { AllByRecursion (λ source. (S.told source).faults < 2 ^ 64 - 1) sources.items }
    requires sink_countable { (K.taken sink.old).faults < 2 ^ 64 - 1 }
    requires entries { AllByRecursion (λ entry. entry.session.0 ≤ length logs.old.items) solo.old.journal }
    ensures room { vec_capacity logs.old ≤ vec_capacity logs.new }
    ensures limits { solo.new.limits ≡ solo.old.limits }
    ensures ends { EndsPhase S.told limits phase sources.items solo.old.journal solo.new.journal logs.old.items logs.new.items
        (K.taken sink.old) (K.taken sink.new) result }
{
    let before = logs.len();
    run_phase(alloc, limits, phase, sources, solo, logs);
    let added = &logs[before..];
    match write_logs(alloc, sink, added) {
        Ok(()) => status_of(added),
        Err(_) => Status::Write,
    }
}

// Runs the sessions of one phase, each in the place that is kept for its log.
fn run_phase<S: Source + Drop>(
    alloc: Global,
    limits: Limits,
    phase: u32,
    sources: Vec<S>,
    solo: &mut Solo,
    logs: &mut Vec<SessionLog>,
)
    requires limits { limits ≡ solo.old.limits }
    requires range { IsInRange limits }
    requires sources { length logs.old.items + length sources.items < 2 ^ 31 }
    requires room { length logs.old.items + length sources.items ≤ vec_capacity logs.old }
    requires sources_countable { AllByRecursion (λ source. (S.told source).faults < 2 ^ 64 - 1) sources.items }
    requires entries { AllByRecursion (λ entry. entry.session.0 ≤ length logs.old.items) solo.old.journal }
    ensures room { vec_capacity logs.old ≤ vec_capacity logs.new }
    ensures limits { solo.new.limits ≡ solo.old.limits }
    ensures runs { RunsPhase S.told limits phase sources.items solo.old.journal solo.new.journal logs.old.items logs.new.items }
{
    for source in sources {
        let number = SessionNo(logs.len() as u32 + 1);
        let log = run_session(alloc, limits, number, phase, solo, source);
        match logs.push(log) {
            Ok(()) => {}
            Err(_) => unreachable!(),
        }
    }
}

// The status of the first session that is not finished.
fn status_of(logs: &[SessionLog]) -> Status
    ensures { result ≡ status_of_end (first_unfinished logs.now) }
{
    for log in logs {
        match log.end {
            End::Finished => {}
            End::Read { .. } => return Status::Read,
            End::SourceTooLong { .. } => return Status::SourceTooLong,
            End::NoMemory => return Status::NoMemory,
        }
    }
    Status::Ok
}
