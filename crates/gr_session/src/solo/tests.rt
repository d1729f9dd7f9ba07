// Lines on one thread: their replies, byte for byte, and the lengths of the journal between which they stand.
ghost use Rattle.std.specs.Prelude.{◌≡◌, ◌+◌, ◌-◌, ◌^◌, ◌≤◌, ◌<◌, None, false, length, IfOk, OnOk, OnSome};
ghost use Rattle.gr_base.specs.Limits.{IsInRange};
ghost use Rattle.gr_cmdline.specs.Commands.{IsItem};
ghost use Rattle.gr_session.specs.Step.{Begins};

use super::step_solo;
use crate::{Done, Session, Step};
use gr_base::{Limits, SessionNo};
use gr_cmdline::{Item, Next, Reader};
use gr_publish::Solo;
use std::alloc::Global;
use std::process::Abort;
use std::test::Fail;

// A line, or a load with its data, and what it must answer: its reply and its two places.
type Case = (&'static str, &'static str, u64, u64);

// What a text asks for first.
fn item(alloc: Global, limits: Limits, text: &str) -> Result<Item, Fail>
    requires { IsInRange limits }
    ensures { IfOk result IsItem }
{
    let mut reader = Reader::new(alloc, limits);
    reader.feed(text.as_bytes())?;
    reader.end();
    match reader.next_command(alloc) {
        Next::Item(item) => Ok(item),
        _ => Err(Fail::from("no command stands there")),
    }
}

fn running(session: &Session) -> Option<()>
    ensures { OnSome result (session.now.ended ≡ false) }
{
    if session.ended() { None } else { Some(()) }
}

fn within(solo: &Solo, mark: u64) -> Option<()>
    ensures { OnSome result (mark ≤ length solo.now.journal) }
{
    if solo.pin().journal().len() < mark {
        None
    } else {
        Some(())
    }
}

// Runs what a text asks for, where the session still runs.
fn step(alloc: Global, session: &mut Session, solo: &mut Solo, item: Item) -> Result<Done, Fail>
    requires item { IsItem item }
    requires idle { session.old.going ≡ None }
    requires countable { session.old.command < 2 ^ 64 - 1 }
    requires behind { session.old.mark ≤ length solo.old.journal }
    requires limits { session.old.limits ≡ solo.old.limits }
    ensures idle { OnOk result (session.new.going ≡ None) }
    ensures command { OnOk result (session.new.command ≡ session.old.command + 1) }
    ensures behind { OnOk result (session.new.mark ≤ length solo.new.journal) }
    ensures limits { OnOk result (session.new.limits ≡ solo.new.limits) }
    ensures kept { OnOk result (solo.new.limits ≡ solo.old.limits) }
    ensures begins { OnOk result (Begins solo.old.journal solo.new.journal) }
{
    running(session).ok_or("the session has ended")?;
    let done = step_solo(alloc, session, solo, item);
    within(solo, done.mark).ok_or("the mark is beyond the journal")?;
    Ok(done)
}

// Runs texts one after another, each of which must answer as it says.
fn run(rt: &impl Abort, alloc: Global, limits: Limits, cases: &[Case]) -> Result<(), Fail>
    requires limits { IsInRange limits }
    requires few { length cases.now < 100 }
{
    let mut solo = Solo::new(alloc, limits)?;
    let mut session = Session::open(alloc, SessionNo(1), limits, 0)?;
    run_on(rt, alloc, limits, &mut session, &mut solo, cases)
}

// Runs texts in a session that has run none.
fn run_on(
    rt: &impl Abort,
    alloc: Global,
    limits: Limits,
    session: &mut Session,
    solo: &mut Solo,
    cases: &[Case],
) -> Result<(), Fail>
    requires limits { IsInRange limits }
    requires few { length cases.now < 100 }
    requires idle { session.old.going ≡ None }
    requires none { session.old.command ≡ 0 }
    requires behind { session.old.mark ≤ length solo.old.journal }
    requires same { session.old.limits ≡ solo.old.limits }
    ensures kept { OnOk result (solo.new.limits ≡ solo.old.limits) }
{
    for (text, reply, from, mark) in cases {
        let item = item(alloc, limits, text)?;
        let done = step(alloc, session, solo, item)?;
        assert_eq!(rt; done.text.as_slice(), reply.as_bytes(), "of {text}");
        assert_eq!(rt; done.from, *from, "of {text}");
        assert_eq!(rt; done.mark, *mark, "of {text}");
    }
    Ok(())
}

// Runs a command of another session between the one entry that a command asks for and its answer.
fn around(
    alloc: Global,
    solo: &mut Solo,
    session: &mut Session,
    outer: Item,
    other: &mut Session,
    inner: Item,
) -> Result<Done, Fail>
    requires outer { IsItem outer }
    requires inner { IsItem inner }
    requires idle { session.old.going ≡ None }
    requires countable { session.old.command < 2 ^ 64 - 1 }
    requires behind { session.old.mark ≤ length solo.old.journal }
    requires limits { session.old.limits ≡ solo.old.limits }
    requires other_idle { other.old.going ≡ None }
    requires other_countable { other.old.command < 2 ^ 64 - 1 }
    requires other_behind { other.old.mark ≤ length solo.old.journal }
    requires other_limits { other.old.limits ≡ solo.old.limits }
    ensures kept { OnOk result (solo.new.limits ≡ solo.old.limits) }
{
    running(session).ok_or("the session has ended")?;
    let _length = solo.pin().journal().len();
    match session.begin(alloc, solo.pin(), outer) {
        Step::Done(_) => Err(Fail::from("the command asks for no entry")),
        Step::Publish(entry) => {
            step(alloc, other, solo, inner)?;
            let _length = solo.pin().journal().len();
            let answer = solo.publish(alloc, entry);
            let _length = solo.pin().journal().len();
            match session.answered(alloc, answer) {
                Step::Done(done) => Ok(done),
                Step::Publish(_) => Err(Fail::from("the command asks for two entries")),
            }
        }
    }
}

#[test]
fn each_command_has_its_reply_and_its_places(rt: HostRuntime) -> Result<(), Fail> {
    let cases = [
        ("foo", "[[4,\"UnknownCommand foo\"],false]\n", 0, 0),
        (
            "table_create T TABLE_HASH_KEY ShortText",
            "[[0],true]\n",
            0,
            1,
        ),
        (
            "table_create T TABLE_HASH_KEY ShortText",
            "[[10,\"NameTaken T\"],false]\n",
            1,
            1,
        ),
        (
            "/d/table_create?name=a%22b&key_type=ShortText",
            "[[9,\"BadName a\\\"b\"],false]\n",
            1,
            1,
        ),
        (
            "load --table T\n[\n{\"_key\":\"a\"},\n{\"_key\":\"b\"},\n{\"_key\":\"a\"}\n]",
            "[[0],3]\n",
            1,
            4,
        ),
        (
            "select T",
            "[[0],[[[2],[[\"_id\",\"UInt32\"],[\"_key\",\"ShortText\"]],[1,\"a\"],[2,\"b\"]]]]\n",
            4,
            4,
        ),
    ];
    run(&rt, rt.alloc(), Limits::default(), &cases)
}

#[test]
fn a_refused_row_ends_a_load_and_what_was_entered_stays(rt: HostRuntime) -> Result<(), Fail> {
    let cases = [
        ("table_create T --key_type ShortText", "[[0],true]\n", 0, 1),
        (
            "load '[{\"_key\":\"c\"},3,{\"_key\":\"d\"}]' T",
            "[[21,\"BadRow row 2\"],1]\n",
            1,
            2,
        ),
        (
            "select T",
            "[[0],[[[1],[[\"_id\",\"UInt32\"],[\"_key\",\"ShortText\"]],[1,\"c\"]]]]\n",
            2,
            2,
        ),
        ("load [] T", "[[0],0]\n", 2, 2),
    ];
    run(&rt, rt.alloc(), Limits::default(), &cases)
}

#[test]
fn a_table_that_is_not_there_is_told(rt: HostRuntime) -> Result<(), Fail> {
    let cases = [
        ("load [] Nope", "[[11,\"NoSuchTable Nope\"],0]\n", 0, 0),
        ("select Nope", "[[11,\"NoSuchTable Nope\"],false]\n", 0, 0),
    ];
    run(&rt, rt.alloc(), Limits::default(), &cases)
}

#[test]
fn a_wrong_fixed_parameter_is_told_before_all_else(rt: HostRuntime) -> Result<(), Fail> {
    let cases = [
        (
            "/d/select.xml?table=T",
            "[[16,\"BadValue output_type\"],false]\n",
            0,
            0,
        ),
        (
            "select T --command_version 2 --output_type json",
            "[[16,\"BadValue command_version\"],false]\n",
            0,
            0,
        ),
        (
            "load [] T --input_type xml",
            "[[16,\"BadValue input_type\"],0]\n",
            0,
            0,
        ),
        (
            "delete T --id 1 --key a",
            "[[16,\"BadValue id\"],false]\n",
            0,
            0,
        ),
    ];
    run(&rt, rt.alloc(), Limits::default(), &cases)
}

#[test]
fn what_a_filter_finds_is_deleted(rt: HostRuntime) -> Result<(), Fail> {
    let cases = [
        ("table_create N TABLE_HASH_KEY UInt8", "[[0],true]\n", 0, 1),
        (
            "column_create N n COLUMN_SCALAR Int32",
            "[[0],true]\n",
            1,
            2,
        ),
        ("load '[[1,1],[2,5],[3,9]]' N _key,n", "[[0],3]\n", 2, 5),
        (
            "select N --sort_keys -n --output_columns n --limit 1 --drilldown n --drilldown_limit 1",
            "[[0],[[[3],[[\"n\",\"Int32\"]],[9]],[[3],[[\"_key\",\"Int32\"],[\"_nsubrecs\",\"Int32\"]],[9,1]]]]\n",
            5,
            5,
        ),
        ("delete N --filter 'n > 3'", "[[0],true]\n", 5, 7),
        (
            "select N --output_columns n",
            "[[0],[[[1],[[\"n\",\"Int32\"]],[1]]]]\n",
            7,
            7,
        ),
        ("delete N --filter 'n > 3'", "[[0],true]\n", 7, 7),
        (
            "delete N --filter 'n >'",
            "[[28,\"BadScript at 3 filter\"],false]\n",
            7,
            7,
        ),
        (
            "delete N --key 1 --filter 'n > 3'",
            "[[16,\"BadValue filter\"],false]\n",
            7,
            7,
        ),
    ];
    run(&rt, rt.alloc(), Limits::default(), &cases)
}

#[test]
fn a_record_that_no_longer_fits_stays(rt: HostRuntime) -> Result<(), Fail> {
    let (alloc, limits) = (rt.alloc(), Limits::default());
    let mut solo = Solo::new(alloc, limits)?;
    let mut first = Session::open(alloc, SessionNo(1), limits, 0)?;
    let cases = [
        ("table_create N TABLE_HASH_KEY UInt8", "[[0],true]\n", 0, 1),
        (
            "column_create N n COLUMN_SCALAR Int32",
            "[[0],true]\n",
            1,
            2,
        ),
        ("load '[[1,1],[2,5]]' N _key,n", "[[0],2]\n", 2, 4),
    ];
    run_on(&rt, alloc, limits, &mut first, &mut solo, &cases)?;
    let mut second = Session::open(alloc, SessionNo(2), limits, 0)?;
    let mut third = Session::open(alloc, SessionNo(3), limits, 0)?;
    let outer = item(alloc, limits, "delete N --filter 'n > 3'")?;
    let inner = item(alloc, limits, "load '[[2,1]]' N _key,n")?;
    let done = around(alloc, &mut solo, &mut second, outer, &mut third, inner)?;
    assert_eq!(&rt; done.text.as_slice(), "[[0],true]\n".as_bytes());
    assert_eq!(&rt; (done.from, done.mark), (4, 6));
    let mut fourth = Session::open(alloc, SessionNo(4), limits, 0)?;
    let after = [(
        "select N --output_columns n",
        "[[0],[[[2],[[\"n\",\"Int32\"]],[1],[1]]]]\n",
        6,
        6,
    )];
    run_on(&rt, alloc, limits, &mut fourth, &mut solo, &after)
}

#[test]
fn a_full_journal_ends_a_deletion(rt: HostRuntime) -> Result<(), Fail> {
    let limits = Limits {
        journal: 4,
        ..Limits::default()
    };
    let cases = [
        ("table_create N TABLE_HASH_KEY UInt8", "[[0],true]\n", 0, 1),
        ("load '[[1],[2]]' N _key", "[[0],2]\n", 1, 3),
        (
            "delete N --filter true",
            "[[35,\"JournalFull\"],false]\n",
            3,
            4,
        ),
        (
            "select N --output_columns _id",
            "[[0],[[[1],[[\"_id\",\"UInt32\"]],[2]]]]\n",
            4,
            4,
        ),
    ];
    run(&rt, rt.alloc(), limits, &cases)
}

#[test]
fn a_record_is_deleted_by_its_key_or_its_id(rt: HostRuntime) -> Result<(), Fail> {
    let cases = [
        ("table_create T TABLE_HASH_KEY UInt8", "[[0],true]\n", 0, 1),
        ("load '[[7],[8]]' T _key", "[[0],2]\n", 1, 3),
        ("delete T 007", "[[0],true]\n", 3, 4),
        ("delete T 007", "[[26,\"NoSuchRecord 007\"],false]\n", 4, 4),
        ("delete T --id 1", "[[26,\"NoSuchRecord 1\"],false]\n", 4, 4),
        ("delete T 300", "[[17,\"OutOfRange key\"],false]\n", 4, 4),
        ("delete T --id -0", "[[30,\"BadNumber id\"],false]\n", 4, 4),
        ("delete T --id 2", "[[0],true]\n", 4, 5),
        ("delete U x", "[[11,\"NoSuchTable U\"],false]\n", 5, 5),
    ];
    run(&rt, rt.alloc(), Limits::default(), &cases)
}

#[test]
fn a_dump_gives_the_commands_that_make_the_database_again(rt: HostRuntime) -> Result<(), Fail> {
    let cases = [
        ("dump", "", 0, 0),
        (
            "table_create P TABLE_HASH_KEY ShortText",
            "[[0],true]\n",
            0,
            1,
        ),
        (
            "column_create P friend COLUMN_SCALAR P",
            "[[0],true]\n",
            1,
            2,
        ),
        (
            "column_create P age COLUMN_SCALAR UInt8",
            "[[0],true]\n",
            2,
            3,
        ),
        (
            "load '[{\"_key\":\"a\",\"friend\":\"b\",\"age\":1},{\"_key\":\"c\",\"friend\":\"a\"}]' P",
            "[[0],2]\n",
            3,
            5,
        ),
        ("delete P a", "[[0],true]\n", 5, 6),
        (
            "dump",
            "table_create P TABLE_HASH_KEY ShortText\ncolumn_create P friend COLUMN_SCALAR P\ncolumn_create P age COLUMN_SCALAR UInt8\nload --table P\n[\n[\"_key\",\"age\"],\n[\"b\",0],\n[\"c\",0]\n]\nload --table P\n[\n[\"_key\",\"friend\"],\n[\"b\",\"\"],\n[\"c\",\"\"]\n]\n",
            6,
            6,
        ),
    ];
    run(&rt, rt.alloc(), Limits::default(), &cases)
}

#[test]
fn an_index_is_dumped_last(rt: HostRuntime) -> Result<(), Fail> {
    let cases = [
        (
            "table_create W TABLE_PAT_KEY ShortText --default_tokenizer TokenBigram",
            "[[0],true]\n",
            0,
            1,
        ),
        ("table_create D TABLE_NO_KEY", "[[0],true]\n", 1, 2),
        ("column_create D t COLUMN_SCALAR Text", "[[0],true]\n", 2, 3),
        (
            "column_create W i COLUMN_INDEX|WITH_POSITION|WITH_SECTION D t",
            "[[0],true]\n",
            3,
            4,
        ),
        ("load [[\"ab\"]] D t", "[[0],1]\n", 4, 5),
        (
            "dump",
            "table_create D TABLE_NO_KEY\ncolumn_create D t COLUMN_SCALAR Text\nload --table D\n[\n[\"t\"],\n[\"ab\"]\n]\ntable_create W TABLE_PAT_KEY ShortText --default_tokenizer TokenBigram\ncolumn_create W i COLUMN_INDEX|WITH_SECTION|WITH_POSITION D t\n",
            5,
            5,
        ),
    ];
    run(&rt, rt.alloc(), Limits::default(), &cases)
}

#[test]
fn a_window_and_columns_are_shown(rt: HostRuntime) -> Result<(), Fail> {
    let cases = [
        ("table_create T TABLE_NO_KEY", "[[0],true]\n", 0, 1),
        ("load [{},{},{}] T", "[[0],3]\n", 1, 4),
        (
            "select T --output_columns '_score, _id' --offset -2 --limit 1",
            "[[0],[[[3],[[\"_score\",\"Int32\"],[\"_id\",\"UInt32\"]],[1,2]]]]\n",
            4,
            4,
        ),
        (
            "select T --limit x --offset 1.5",
            "[[30,\"BadNumber offset\"],false]\n",
            4,
            4,
        ),
        (
            "select T --output_columns _key --limit x",
            "[[12,\"NoSuchColumn _key\"],false]\n",
            4,
            4,
        ),
    ];
    run(&rt, rt.alloc(), Limits::default(), &cases)
}

#[test]
fn columns_are_made_loaded_and_shown(rt: HostRuntime) -> Result<(), Fail> {
    let cases = [
        (
            "table_create Site TABLE_PAT_KEY ShortText",
            "[[0],true]\n",
            0,
            1,
        ),
        (
            "column_create Site title COLUMN_SCALAR ShortText",
            "[[0],true]\n",
            1,
            2,
        ),
        (
            "column_create Site link COLUMN_VECTOR Site",
            "[[0],true]\n",
            2,
            3,
        ),
        (
            "column_create Site link COLUMN_SCALAR Float",
            "[[10,\"NameTaken link\"],false]\n",
            3,
            3,
        ),
        (
            "load --table Site\n[[\"_key\",\"link\",\"title\"],[\"a\",[\"d\",\"a\"],\"b c\"],[\"e\",[],7]]",
            "[[16,\"BadValue row 2 title\"],1]\n",
            3,
            4,
        ),
        (
            "select Site",
            "[[0],[[[2],[[\"_id\",\"UInt32\"],[\"_key\",\"ShortText\"],[\"title\",\"ShortText\"],[\"link\",\"Site\"]],[1,\"a\",\"b c\",[\"d\",\"a\"]],[2,\"d\",\"\",[]]]]]\n",
            4,
            4,
        ),
    ];
    run(&rt, rt.alloc(), Limits::default(), &cases)
}

#[test]
fn a_lexicon_takes_the_tokens_of_texts_and_no_load(rt: HostRuntime) -> Result<(), Fail> {
    let cases = [
        ("table_create D TABLE_NO_KEY", "[[0],true]\n", 0, 1),
        ("column_create D t COLUMN_SCALAR Text", "[[0],true]\n", 1, 2),
        (
            "table_create W TABLE_HASH_KEY ShortText --default_tokenizer TokenDelimit",
            "[[0],true]\n",
            2,
            3,
        ),
        ("column_create W i COLUMN_INDEX D t", "[[0],true]\n", 3, 4),
        ("load '[[\"a b\"],[\"b\"]]' D t", "[[0],2]\n", 4, 6),
        ("load [] W", "[[25,\"LexiconReadOnly W\"],0]\n", 6, 6),
        (
            "select W",
            "[[0],[[[2],[[\"_id\",\"UInt32\"],[\"_key\",\"ShortText\"]],[1,\"a\"],[2,\"b\"]]]]\n",
            6,
            6,
        ),
    ];
    run(&rt, rt.alloc(), Limits::default(), &cases)
}

#[test]
fn a_select_shows_ten_records_with_their_keys_escaped(rt: HostRuntime) -> Result<(), Fail> {
    let cases = [
        (
            "table_create T TABLE_HASH_KEY ShortText",
            "[[0],true]\n",
            0,
            1,
        ),
        (
            "load --table T\n[{\"_key\":\"\\\"\\\\\\n\\u0001é\"},{\"_key\":\"2\"},{\"_key\":\"3\"},{\"_key\":\"4\"},{\"_key\":\"5\"},{\"_key\":\"6\"},{\"_key\":\"7\"},{\"_key\":\"8\"},{\"_key\":\"9\"},{\"_key\":\"10\"},{\"_key\":\"11\"}]",
            "[[0],11]\n",
            1,
            12,
        ),
        (
            "select T",
            "[[0],[[[11],[[\"_id\",\"UInt32\"],[\"_key\",\"ShortText\"]],[1,\"\\\"\\\\\\n\\u0001é\"],[2,\"2\"],[3,\"3\"],[4,\"4\"],[5,\"5\"],[6,\"6\"],[7,\"7\"],[8,\"8\"],[9,\"9\"],[10,\"10\"]]]]\n",
            12,
            12,
        ),
    ];
    run(&rt, rt.alloc(), Limits::default(), &cases)
}

#[test]
fn a_full_table_stops_a_load(rt: HostRuntime) -> Result<(), Fail> {
    let limits = Limits {
        records: 2,
        ..Limits::default()
    };
    let cases = [
        (
            "table_create T TABLE_HASH_KEY ShortText",
            "[[0],true]\n",
            0,
            1,
        ),
        (
            "load --table T\n[{\"_key\":\"a\"},{\"_key\":\"b\"},{\"_key\":\"c\"},{\"_key\":\"a\"}]",
            "[[34,\"TableFull row 3 T\"],2]\n",
            1,
            3,
        ),
    ];
    run(&rt, rt.alloc(), limits, &cases)
}

#[test]
fn a_full_table_of_those_that_a_row_adds_to_is_told(rt: HostRuntime) -> Result<(), Fail> {
    let limits = Limits {
        records: 2,
        ..Limits::default()
    };
    let cases = [
        (
            "table_create G TABLE_HASH_KEY ShortText",
            "[[0],true]\n",
            0,
            1,
        ),
        (
            "table_create D TABLE_HASH_KEY ShortText",
            "[[0],true]\n",
            1,
            2,
        ),
        ("column_create D g COLUMN_SCALAR G", "[[0],true]\n", 2, 3),
        ("column_create D t COLUMN_SCALAR Text", "[[0],true]\n", 3, 4),
        (
            "table_create W TABLE_PAT_KEY ShortText --default_tokenizer TokenDelimit",
            "[[0],true]\n",
            4,
            5,
        ),
        ("column_create W i COLUMN_INDEX D t", "[[0],true]\n", 5, 6),
        (
            "load '[{\"_key\":\"a\",\"g\":\"x\"},{\"_key\":\"b\",\"g\":\"y\"},{\"_key\":\"b\",\"g\":\"z\"}]' D",
            "[[34,\"TableFull row 3 G\"],2]\n",
            6,
            8,
        ),
        (
            "load '[{\"_key\":\"a\",\"t\":\"p q\"},{\"_key\":\"a\",\"t\":\"r\"}]' D",
            "[[34,\"TableFull row 2 W\"],1]\n",
            8,
            9,
        ),
        (
            "load '[{\"_key\":\"c\"}]' D",
            "[[34,\"TableFull row 1 D\"],0]\n",
            9,
            9,
        ),
        (
            "select W",
            "[[0],[[[2],[[\"_id\",\"UInt32\"],[\"_key\",\"ShortText\"]],[1,\"p\"],[2,\"q\"]]]]\n",
            9,
            9,
        ),
    ];
    run(&rt, rt.alloc(), limits, &cases)
}

#[test]
fn what_a_row_does_not_give_stays_and_ids_are_given_once(rt: HostRuntime) -> Result<(), Fail> {
    let cases = [
        ("table_create T TABLE_PAT_KEY Int8", "[[0],true]\n", 0, 1),
        (
            "column_create T a COLUMN_SCALAR UInt8",
            "[[0],true]\n",
            1,
            2,
        ),
        (
            "column_create T b COLUMN_VECTOR Int64",
            "[[0],true]\n",
            2,
            3,
        ),
        (
            "load '[{\"_key\":-1,\"a\":7,\"b\":[1,2]},{\"_key\":-1,\"b\":[]},{\"_key\":5}]' T",
            "[[0],3]\n",
            3,
            6,
        ),
        (
            "select T --output_columns _id,a,b --limit 1",
            "[[0],[[[2],[[\"_id\",\"UInt32\"],[\"a\",\"UInt8\"],[\"b\",\"Int64\"]],[1,7,[]]]]]\n",
            6,
            6,
        ),
        ("delete T -1", "[[0],true]\n", 6, 7),
        ("load [[-1]] T _key", "[[0],1]\n", 7, 8),
        (
            "select T --output_columns _id,_key",
            "[[0],[[[2],[[\"_id\",\"UInt32\"],[\"_key\",\"Int8\"]],[2,5],[3,-1]]]]\n",
            8,
            8,
        ),
    ];
    run(&rt, rt.alloc(), Limits::default(), &cases)
}

#[test]
fn a_full_journal_refuses_a_table(rt: HostRuntime) -> Result<(), Fail> {
    let limits = Limits {
        journal: 1,
        ..Limits::default()
    };
    let cases = [
        (
            "table_create T TABLE_HASH_KEY ShortText",
            "[[0],true]\n",
            0,
            1,
        ),
        (
            "table_create U TABLE_HASH_KEY ShortText",
            "[[35,\"JournalFull\"],false]\n",
            1,
            1,
        ),
    ];
    run(&rt, rt.alloc(), limits, &cases)
}
