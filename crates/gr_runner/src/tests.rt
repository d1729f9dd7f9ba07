// Whole runs, over files and a sink in memory.
ghost use Rattle.std.specs.Prelude.{◌≡◌, ◌<◌, IfOk};
ghost use Rattle.gr_base.specs.Limits.{IsInRange, IsUpTo};

use super::{Report, Status, main_call, run_serial};
use gr_base::{Bytes, Limits, NoMemory};
use gr_outside::{Calls, MemoryFiles, MemorySink, MemorySource, NamedFile, NamedFiles};
use std::alloc::Global;
use std::test::Fail;

const ALL: usize = 100_000;

const CREATION: &str = "table_create T TABLE_HASH_KEY ShortText\n";

fn calls(alloc: Global, failing: &[u64]) -> Result<Calls, NoMemory> {
    Ok(Calls::from_vec(Vec::from_slice(alloc, failing)?))
}

fn sink(alloc: Global, failing: &[u64]) -> Result<MemorySink, NoMemory>
    ensures { IfOk result (λ sink. sink.faults ≡ 0) }
{
    MemorySink::new(alloc, calls(alloc, failing)?, 5)
}

// The one file `a.grn`, of which these reads fail.
fn files(
    alloc: Global,
    text: &str,
    failing: &[u64],
    largest: usize,
) -> Result<MemoryFiles, NoMemory>
    requires { 0 < largest }
    ensures { IfOk result (λ files. files.faults ≡ 0) }
{
    let mut files = Vec::new(alloc);
    files.push(NamedFile {
        name: Bytes::from_slice(alloc, b"a.grn")?,
        bytes: Bytes::from_slice(alloc, text.as_bytes())?,
        failing: calls(alloc, failing)?,
        largest,
    })?;
    MemoryFiles::new(NamedFiles::from_vec(files), calls(alloc, &[])?)
}

fn run(
    alloc: Global,
    word: &str,
    files: &mut MemoryFiles,
    sink: &mut MemorySink,
) -> Result<Report, NoMemory>
    requires files { files.old.faults ≡ 0 }
    requires sink { sink.old.faults ≡ 0 }
{
    let mut words = Vec::new(alloc);
    words.push(String::from_str(alloc, word)?)?;
    Ok(main_call(alloc, &words, files, sink))
}

// Whether a file has these replies, when its reads give at most so many bytes.
fn replies(alloc: Global, text: &str, want: &str, largest: usize) -> Result<bool, NoMemory>
    requires { 0 < largest }
{
    let mut files = files(alloc, text, &[], largest)?;
    let mut sink = sink(alloc, &[])?;
    let report = run(alloc, "a.grn", &mut files, &mut sink)?;
    Ok(report.status == Status::Ok && sink.taken() == want.as_bytes())
}

// Whether a creation ends so and has these replies, where these reads and writes fail.
fn ends(
    alloc: Global,
    word: &str,
    reads: &[u64],
    writes: &[u64],
    status: Status,
    want: &str,
) -> Result<bool, NoMemory> {
    let mut files = files(alloc, CREATION, reads, ALL)?;
    let mut sink = sink(alloc, writes)?;
    let report = run(alloc, word, &mut files, &mut sink)?;
    Ok(report.status == status && sink.taken() == want.as_bytes())
}

#[test]
fn each_command_has_its_reply_however_its_bytes_come(rt: HostRuntime) -> Result<(), Fail> {
    let alloc = rt.alloc();
    for (text, want) in [
        ("", ""),
        (CREATION, "[[0],true]\n"),
        ("table_create T TABLE_HASH_KEY ShortText", "[[0],true]\n"),
        (
            "table_create Site TABLE_HASH_KEY ShortText\ntable_create Site TABLE_HASH_KEY ShortText\n",
            "[[0],true]\n[[10,\"NameTaken Site\"],false]\n",
        ),
        (
            "foo\n\n \ntable_create _x TABLE_HASH_KEY ShortText\n",
            "[[4,\"UnknownCommand foo\"],false]\n[[9,\"BadName _x\"],false]\n",
        ),
        ("foo\r\n", "[[4,\"UnknownCommand foo\"],false]\n"),
        (
            "table_create a\"b\\c TABLE_HASH_KEY ShortText\n",
            "[[9,\"BadName a\\\"b\\\\c\"],false]\n",
        ),
    ] {
        assert!(rt; replies(alloc, text, want, 1)?);
        assert!(rt; replies(alloc, text, want, 3)?);
        assert!(rt; replies(alloc, text, want, ALL)?);
    }
    Ok(())
}

#[test]
fn loads_and_selects_are_answered_however_their_bytes_come(rt: HostRuntime) -> Result<(), Fail> {
    let alloc = rt.alloc();
    for (text, want) in [
        (
            "table_create T TABLE_HASH_KEY ShortText\nload --table T --values '[{\"_key\":\"a\"},{\"_key\":\"b\"}]'\nselect T\n",
            "[[0],true]\n[[0],2]\n[[0],[[[2],[[\"_id\",\"UInt32\"],[\"_key\",\"ShortText\"]],[1,\"a\"],[2,\"b\"]]]]\n",
        ),
        (
            "select Nope\ntable_create T TABLE_HASH_KEY ShortText\nload --table T --values '{}'\nload --table T --values '[3]'\nload --table T --values '[{\"_key\":\"\"}]'\nload --table T --values '[{\"_key\":\"a\",\"zzz\":1}]'\nload --table T --values '[{\"_key\":7}]'\nload --table T --values '[{}]'\n",
            "[[11,\"NoSuchTable Nope\"],false]\n[[0],true]\n[[20,\"BadJson\"],0]\n[[21,\"BadRow row 1\"],0]\n[[23,\"EmptyKey row 1\"],0]\n[[12,\"NoSuchColumn row 1 zzz\"],0]\n[[16,\"BadValue row 1 _key\"],0]\n[[22,\"MissingKey row 1\"],0]\n",
        ),
    ] {
        assert!(rt; replies(alloc, text, want, 1)?);
        assert!(rt; replies(alloc, text, want, 3)?);
        assert!(rt; replies(alloc, text, want, ALL)?);
    }
    Ok(())
}

#[test]
fn a_failing_outside_ends_the_run_with_its_status(rt: HostRuntime) -> Result<(), Fail> {
    let alloc = rt.alloc();
    let reply = "[[0],true]\n";
    assert!(rt; ends(alloc, "-a.grn", &[], &[], Status::Usage, "")?);
    assert!(rt; ends(alloc, "b.grn", &[], &[], Status::Open, "")?);
    assert!(rt; ends(alloc, "a.grn", &[0], &[], Status::Read, "")?);
    assert!(rt; ends(alloc, "a.grn", &[1], &[], Status::Read, reply)?);
    assert!(rt; ends(alloc, "a.grn", &[], &[0], Status::Write, "")?);
    assert!(rt; ends(alloc, "a.grn", &[], &[1], Status::Write, "[[0],")?);
    Ok(())
}

#[test]
fn no_words_are_refused(rt: HostRuntime) -> Result<(), Fail> {
    let alloc = rt.alloc();
    let mut files = files(alloc, CREATION, &[], ALL)?;
    let mut sink = sink(alloc, &[])?;
    let report = main_call(alloc, &[], &mut files, &mut sink);
    assert_eq!(rt; report.status, Status::Usage);
    Ok(())
}

// So many lines that are no commands.
fn lines(alloc: Global, count: usize) -> Result<String, NoMemory> {
    let mut text = String::new(alloc);
    for _ in 0..count {
        text.push_str("x\n")?;
    }
    Ok(text)
}

// How many bytes of the replies to so many lines are taken where the second write fails, and how the run ends.
fn taken_at_once(alloc: Global, count: usize) -> Result<(usize, Status), NoMemory> {
    let mut files = files(alloc, &lines(alloc, count)?, &[], ALL)?;
    let mut sink = MemorySink::new(alloc, calls(alloc, &[1])?, 1_000_000)?;
    let report = run(alloc, "a.grn", &mut files, &mut sink)?;
    Ok((sink.taken().len(), report.status))
}

#[test]
fn replies_are_written_in_large_pieces(rt: HostRuntime) -> Result<(), Fail> {
    let alloc = rt.alloc();
    assert_eq!(rt; taken_at_once(alloc, 2_000)?, (62_000, Status::Ok));
    assert_eq!(rt; taken_at_once(alloc, 4_000)?, (65_536, Status::Write));
    Ok(())
}

// A source of a text, which gives up to four bytes at a time.
fn source(alloc: Global, text: &str) -> Result<MemorySource, NoMemory>
    ensures { IfOk result (λ source. source.faults ≡ 0) }
{
    MemorySource::new(
        Bytes::from_slice(alloc, text.as_bytes())?,
        calls(alloc, &[])?,
        4,
    )
}

// A run of two phases of two sources each.
fn two_phases(alloc: Global, sink: &mut MemorySink) -> Result<Report, NoMemory>
    requires { sink.old.faults ≡ 0 }
{
    let load = "load --table T --values '[{\"_key\":\"a\"}]'\n";
    let first = vec![in alloc; source(alloc, CREATION)?, source(alloc, load)?]?;
    let second = vec![in alloc; source(alloc, CREATION)?, source(alloc, "select T\n")?]?;
    let phases = vec![in alloc; first, second]?;
    Ok(run_serial(alloc, Limits::default(), phases, sink))
}

#[test]
fn a_later_phase_goes_on_where_the_one_before_ended(rt: HostRuntime) -> Result<(), Fail> {
    let alloc = rt.alloc();
    let mut sink = sink(alloc, &[])?;
    let report = two_phases(alloc, &mut sink)?;
    assert_eq!(rt; report.status, Status::Ok);
    let want =
        "[[0],true]\n[[0],1]\n[[10,\"NameTaken T\"],false]\n[[0],[[[1],[[\"_id\",\"UInt32\"],[\"_key\",\"ShortText\"]],[1,\"a\"]]]]\n";
    assert_eq!(rt; sink.taken(), want.as_bytes());
    let mut labels = Vec::new(alloc);
    for log in report.sessions.as_slice() {
        labels.push((log.number.0, log.phase, log.opened))?;
    }
    assert_eq!(rt;
        labels.as_slice(),
        [(1, 1, 0), (2, 1, 1), (3, 2, 2), (4, 2, 2)].as_slice()
    );
    Ok(())
}

// One run of one source under these limits.
fn serial(
    alloc: Global,
    limits: Limits,
    text: &str,
    sink: &mut MemorySink,
) -> Result<Report, NoMemory>
    requires limits { IsInRange limits }
    requires sink { sink.old.faults ≡ 0 }
{
    let mut sources = Vec::new(alloc);
    sources.push(source(alloc, text)?)?;
    let mut phases = Vec::new(alloc);
    phases.push(sources)?;
    Ok(run_serial(alloc, limits, phases, sink))
}

// Whether a text has these replies under these limits.
fn replies_under(
    alloc: Global,
    records: u32,
    journal: u64,
    text: &str,
    want: &str,
) -> Result<bool, NoMemory>
    requires records { IsUpTo 16777216 records }
    requires journal { IsUpTo 67108864 journal }
{
    let mut limits = Limits::default();
    limits.records = records;
    limits.journal = journal;
    let mut sink = sink(alloc, &[])?;
    let report = serial(alloc, limits, text, &mut sink)?;
    Ok(report.status == Status::Ok && sink.taken() == want.as_bytes())
}

#[test]
fn a_full_table_and_a_full_journal_are_told(rt: HostRuntime) -> Result<(), Fail> {
    let alloc = rt.alloc();
    let text =
        "table_create T TABLE_HASH_KEY ShortText\nload --table T --values '[{\"_key\":\"a\"},{\"_key\":\"b\"},{\"_key\":\"c\"}]'\n";
    assert!(rt;
        replies_under(
            alloc,
            2,
            9,
            text,
            "[[0],true]\n[[34,\"TableFull row 3 T\"],2]\n"
        )?
    );
    let text = "table_create T TABLE_HASH_KEY ShortText\ntable_create U TABLE_HASH_KEY ShortText\n";
    assert!(rt;
        replies_under(
            alloc,
            9,
            1,
            text,
            "[[0],true]\n[[35,\"JournalFull\"],false]\n"
        )?
    );
    Ok(())
}

#[test]
fn a_source_above_the_limit_keeps_the_commands_within_it(rt: HostRuntime) -> Result<(), Fail> {
    let alloc = rt.alloc();
    let mut limits = Limits::default();
    limits.source = 10;
    let mut sink = sink(alloc, &[])?;
    let report = serial(alloc, limits, "a\n345678\n#\n", &mut sink)?;
    assert_eq!(rt; report.status, Status::SourceTooLong);
    assert_eq!(rt; report.sessions.as_slice().len(), 1);
    Ok(())
}
