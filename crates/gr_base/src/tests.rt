// The texts as replies show them, the rule for names, and each call that allocates, with memory at hand.
ghost use Rattle.std.specs.Prelude.{◌≡◌, true, Ok, Err, if◌then◌else◌};
ghost use Rattle.gr_base.specs.Failure.{Answers};
ghost use Rattle.gr_base.specs.Name.{is_name};

use super::*;
use std::alloc::Global;
use std::test::Fail;

/// The text of a fault with this name.
fn shown(
    alloc: Global,
    kind: FaultKind,
    row: Option<u64>,
    at: Option<u64>,
    name: &str,
) -> Result<Bytes, NoMemory> {
    let name = Bytes::from_string(alloc, String::from_str(alloc, name)?)?;
    fault_text(
        alloc,
        &Fault {
            kind,
            row,
            at,
            name,
        },
    )
}

#[test]
fn faults_read_as_their_kind_row_place_and_name(rt: HostRuntime) -> Result<(), Fail> {
    let table = [
        (FaultKind::BadJson, None, None, "", "BadJson"),
        (FaultKind::TableFull, Some(3), None, "", "TableFull row 3"),
        (FaultKind::TooDeep, None, Some(0), "", "TooDeep at 0"),
        (FaultKind::BadName, None, None, "9x", "BadName 9x"),
        (
            FaultKind::NoSuchColumn,
            Some(1),
            None,
            "zzz",
            "NoSuchColumn row 1 zzz",
        ),
        (
            FaultKind::BadScript,
            None,
            Some(2),
            "filter",
            "BadScript at 2 filter",
        ),
        (
            FaultKind::TableFull,
            Some(3),
            None,
            "T",
            "TableFull row 3 T",
        ),
        (
            FaultKind::BadValue,
            Some(18_446_744_073_709_551_615),
            Some(10),
            "two words",
            "BadValue row 18446744073709551615 at 10 two words",
        ),
        (
            FaultKind::NoSuchTable,
            None,
            None,
            "größe 表",
            "NoSuchTable größe 表",
        ),
    ];
    for (kind, row, at, name, wanted) in table {
        let text = shown(rt.alloc(), kind, row, at, name)?;
        assert_eq!(rt; text.as_slice(), wanted.as_bytes(), "of {wanted}");
    }
    let no_memory = format!(in rt.alloc(); "{}", NoMemory)?;
    assert_eq!(rt; no_memory.as_str(), "no memory");
    Ok(())
}

#[test]
fn each_kind_has_its_code_and_its_name(rt: HostRuntime) {
    let table = [
        (FaultKind::LineTooLong, 1, "LineTooLong"),
        (FaultKind::NotText, 2, "NotText"),
        (FaultKind::BadLine, 3, "BadLine"),
        (FaultKind::UnknownCommand, 4, "UnknownCommand"),
        (FaultKind::UnknownArgument, 5, "UnknownArgument"),
        (FaultKind::RepeatedArgument, 6, "RepeatedArgument"),
        (FaultKind::MissingArgument, 7, "MissingArgument"),
        (FaultKind::UnfinishedLoad, 8, "UnfinishedLoad"),
        (FaultKind::BadName, 9, "BadName"),
        (FaultKind::NameTaken, 10, "NameTaken"),
        (FaultKind::NoSuchTable, 11, "NoSuchTable"),
        (FaultKind::NoSuchColumn, 12, "NoSuchColumn"),
        (FaultKind::BadFlags, 13, "BadFlags"),
        (FaultKind::BadType, 14, "BadType"),
        (FaultKind::BadSource, 15, "BadSource"),
        (FaultKind::BadValue, 16, "BadValue"),
        (FaultKind::OutOfRange, 17, "OutOfRange"),
        (FaultKind::TooLong, 18, "TooLong"),
        (FaultKind::FloatRefused, 19, "FloatRefused"),
        (FaultKind::BadJson, 20, "BadJson"),
        (FaultKind::BadRow, 21, "BadRow"),
        (FaultKind::MissingKey, 22, "MissingKey"),
        (FaultKind::EmptyKey, 23, "EmptyKey"),
        (FaultKind::KeyGiven, 24, "KeyGiven"),
        (FaultKind::LexiconReadOnly, 25, "LexiconReadOnly"),
        (FaultKind::NoSuchRecord, 26, "NoSuchRecord"),
        (FaultKind::BadQuery, 27, "BadQuery"),
        (FaultKind::BadScript, 28, "BadScript"),
        (FaultKind::TooDeep, 29, "TooDeep"),
        (FaultKind::BadNumber, 30, "BadNumber"),
        (FaultKind::TypeMismatch, 31, "TypeMismatch"),
        (FaultKind::NoMatchColumn, 32, "NoMatchColumn"),
        (FaultKind::BadSortKey, 33, "BadSortKey"),
        (FaultKind::TableFull, 34, "TableFull"),
        (FaultKind::JournalFull, 35, "JournalFull"),
    ];
    for (kind, code, name) in table {
        assert_eq!(rt; kind.code(), code, "of code {code}");
        assert_eq!(rt; kind.name().as_bytes(), name.as_bytes(), "of code {code}");
    }
}

#[test]
fn names_are_letters_digits_and_underscores(rt: HostRuntime) {
    let longest = [b'a'; 255];
    let too_long = [b'a'; 256];
    let table = [
        (b"".as_slice(), false),
        (b"a".as_slice(), true),
        (b"Z".as_slice(), true),
        (b"_a".as_slice(), false),
        (b"1a".as_slice(), false),
        (b"a_1".as_slice(), true),
        (longest.as_slice(), true),
        (too_long.as_slice(), false),
        ("é".as_bytes(), false),
        ("aé".as_bytes(), false),
        (b"a-b".as_slice(), false),
        (b"a.b".as_slice(), false),
        (b"a b".as_slice(), false),
    ];
    for (text, wanted) in table {
        assert_eq!(rt; is_name(text), wanted, "of {text:?}");
    }
}

#[test]
fn texts_are_made_copied_and_ordered_by_their_bytes(rt: HostRuntime) -> Result<(), Fail> {
    let alloc = rt.alloc();
    for text in ["ab", "fourteen bytes", "fifteen bytes !"] {
        let from_vec = Bytes::from_vec(alloc, Vec::from_slice(alloc, text.as_bytes())?)?;
        let from_slice = Bytes::from_slice(alloc, text.as_bytes())?;
        let from_string = Bytes::from_string(alloc, String::from_str(alloc, text)?)?;
        let copy = from_string.try_clone()?;
        drop(from_string);
        for made in [&from_vec, &from_slice, &copy] {
            assert_eq!(rt; made.as_slice(), text.as_bytes());
            assert!(rt; *made == from_vec);
        }
    }
    let rising: [&[u8]; 6] = [b"", b"A", b"a", b"ab", b"b", b"\xff"];
    for pair in rising.windows(2) {
        if let [low, high] = pair {
            let low = Bytes::from_slice(alloc, low)?;
            let high = Bytes::from_slice(alloc, high)?;
            assert!(rt; low < high && high > low && low != high);
        }
    }
    Ok(())
}

#[test]
fn lists_give_back_what_they_are_made_of(rt: HostRuntime) -> Result<(), Fail> {
    let wanted = [RecordId(2), RecordId(1), RecordId(2)];
    let ids: Ids = ListOf::from_vec(Vec::from_slice(rt.alloc(), &wanted)?);
    assert_eq!(rt; ids.as_slice(), wanted.as_slice());
    assert_eq!(rt; ids.into_vec().as_slice(), wanted.as_slice());
    Ok(())
}

/// The name, where it is one.
fn named(alloc: Global, text: &[u8]) -> Result<Bytes, Failure<FaultKind>>
    ensures { Answers result (if is_name text.now then Ok text.now else Err FaultKind.BadName) }
{
    if !is_name(text) {
        return Err(Failure::Refused(FaultKind::BadName));
    }
    let copied = Vec::from_slice(alloc, text)?;
    Ok(Bytes::from_vec(alloc, copied)?)
}

/// A list of the name, or a fault that tells it.
fn listed(alloc: Global, text: &[u8]) -> Result<Texts, Failure<Fault>> {
    let mut texts = Vec::new(alloc);
    if !is_name(text) {
        let name = Bytes::from_slice(alloc, text)?;
        Err(Fault::named(FaultKind::BadName, name))?;
    }
    texts.push(Bytes::from_slice(alloc, text)?)?;
    Ok(ListOf::from_vec(texts))
}

/// The name that a fault tells, where the list was refused.
fn refused_name(listed: Result<Texts, Failure<Fault>>) -> Option<Bytes> {
    match listed.err()? {
        Failure::Refused(fault) => Some(fault.name),
        Failure::NoMemory => None,
    }
}

#[test]
fn what_is_refused_is_no_want_of_memory(rt: HostRuntime) {
    let refused = named(rt.alloc(), b"9x").err();
    assert!(rt;
        refused == Some(Failure::Refused(FaultKind::BadName)),
        "{refused:?}"
    );
    let found = named(rt.alloc(), b"x").err();
    assert!(rt; found.is_none(), "{found:?}");
    let name = refused_name(listed(rt.alloc(), b"9x"));
    assert!(rt;
        name.is_some_and(|name| name.as_slice() == b"9x".as_slice()),
        "9x is no name"
    );
    assert!(rt; listed(rt.alloc(), b"x").is_ok(), "x is a name");
}

#[test]
fn steps_are_counted(rt: HostRuntime) {
    let mut steps = Steps::new();
    steps.tick();
    steps.tick();
    assert_eq!(rt; steps.count(), 2);
}
