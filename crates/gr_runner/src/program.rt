// The top call: from the program's words to its report.
ghost use Rattle.std.specs.Prelude.{◌≡◌, ◌<◌, ◌-◌, ◌^◌, ◌⊎◌, ◌∷◌, [], map, IfOk, IfSome, MatchOption, None, Some, string_bytes};
ghost use Rattle.gr_base.specs.Limits.{default_limits};
ghost use Rattle.gr_runner.specs.Complete.{IsCompleteMain};
ghost use Rattle.gr_runner.specs.Main.{IsNothingRun, IsNotOpened, IsRun, IsUsage, phases_named};
ghost use Rattle.gr_runner.specs.Run.{Run};

use super::{Report, SessionLogs, Status, run_serial};
use gr_base::{Limits, NoMemory};
use gr_outside::{Files, OpenFault, Sink, Source};
use std::alloc::Global;

/// Reads the words (without the program's own name), opens the file that they name, runs it, and writes its replies.
pub fn main_call<F: Files, K: Sink>(
    alloc: Global,
    words: &[String],
    files: &mut F,
    sink: &mut K,
) -> Report
    requires files_countable { (F.told files.old).faults < 2 ^ 64 - 1 }
    requires sink_countable { (K.taken sink.old).faults < 2 ^ 64 - 1 }
    ensures usage { phases_named (map string_bytes words.now) ≡ None → IsUsage result files.old files.new sink.old sink.new }
    ensures run { IfSome (phases_named (map string_bytes words.now)) (λ phases.
        IsNotOpened (F.told files.old) (F.told files.new) phases result sink.old sink.new
        ⊎ IsRun (F.told files.old) (F.told files.new) default_limits phases result (K.taken sink.old) (K.taken sink.new)) }
    ensures complete { IfSome (phases_named (map string_bytes words.now)) (IsCompleteMain (F.told files.old) default_limits result (K.taken sink.old) (K.taken sink.new)) }
{
    run_words(alloc, words, files, sink)
}

// The same call, of which that its run is complete follows.
fn run_words<F: Files, K: Sink>(
    alloc: Global,
    words: &[String],
    files: &mut F,
    sink: &mut K,
) -> Report
    requires files_countable { (F.told files.old).faults < 2 ^ 64 - 1 }
    requires sink_countable { (K.taken sink.old).faults < 2 ^ 64 - 1 }
    ensures usage { phases_named (map string_bytes words.now) ≡ None → IsUsage result files.old files.new sink.old sink.new }
    ensures run { IfSome (phases_named (map string_bytes words.now)) (λ phases.
        IsNotOpened (F.told files.old) (F.told files.new) phases result sink.old sink.new
        ⊎ IsRun (F.told files.old) (F.told files.new) default_limits phases result (K.taken sink.old) (K.taken sink.new)) }
{
    let Some(name) = file_named(words) else {
        return nothing_run(alloc, Status::Usage);
    };
    match files.open(alloc, name) {
        Ok(file) => run_file(alloc, file, sink),
        Err(OpenFault::Failed) => nothing_run(alloc, Status::Open),
        Err(OpenFault::NoMemory) => nothing_run(alloc, Status::NoMemory),
    }
}

// The one file that the words name.
fn file_named(words: &[String]) -> Option<&str>
    ensures { MatchOption result (phases_named (map string_bytes words.now) ≡ None)
        (λ name. phases_named (map string_bytes words.now) ≡ Some ((name.now ∷ []) ∷ [])) }
{
    match words {
        [name] if !name.as_bytes().starts_with(b"-") => Some(name.as_str()),
        _ => None,
    }
}

// Runs one file, in one phase.
fn run_file<S: Source + Drop, K: Sink>(alloc: Global, file: S, sink: &mut K) -> Report
    requires fresh { (S.told file).faults ≡ 0 }
    requires sink_countable { (K.taken sink.old).faults < 2 ^ 64 - 1 }
    ensures { Run S.told default_limits ((file ∷ []) ∷ []) result
        (K.taken sink.old) (K.taken sink.new) }
{
    match one_phase(alloc, file) {
        Ok(phases) => run_serial(alloc, Limits::default(), phases, sink),
        Err(NoMemory) => nothing_run(alloc, Status::NoMemory),
    }
}

// One phase of one source.
fn one_phase<S: Drop>(alloc: Global, file: S) -> Result<Vec<Vec<S>>, NoMemory>
    ensures { IfOk result (λ phases. map (λ sources. sources.items) phases.items ≡ (file ∷ []) ∷ []) }
{
    let mut sources = Vec::new(alloc);
    sources.push(file)?;
    let mut phases = Vec::new(alloc);
    phases.push(sources)?;
    Ok(phases)
}

// The report of a run of which nothing ran.
fn nothing_run(alloc: Global, status: Status) -> Report
    ensures status { result.status ≡ status }
    ensures nothing { IsNothingRun result }
{
    Report {
        status,
        root: None,
        sessions: SessionLogs::from_vec(Vec::new(alloc)),
    }
}
