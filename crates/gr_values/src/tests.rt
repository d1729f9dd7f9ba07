// Values and keys as they are read and shown, by hand, with memory at hand.
ghost use Rattle.std.specs.Prelude.{◌≡◌, true};
ghost use Rattle.std.specs.Bool.{OnTrue};
ghost use Rattle.gr_values.specs.Types.{IsShape};

use super::*;
use gr_base::{Bytes, FaultKind, NoMemory, RecordId};
use serde_json::Value;
use std::alloc::Global;
use std::test::Fail;

fn one(of: DataType) -> Shape {
    Shape {
        list: false,
        of,
        reference: false,
    }
}

fn many(of: DataType) -> Shape {
    Shape {
        list: true,
        ..one(of)
    }
}

fn reference(of: DataType) -> Shape {
    Shape {
        reference: true,
        ..one(of)
    }
}

fn references(of: DataType) -> Shape {
    Shape {
        list: true,
        ..reference(of)
    }
}

fn is_shape(shape: Shape) -> bool
    ensures { OnTrue result (IsShape shape) }
{
    if shape.reference && !shape.of.is_key_type() {
        return false;
    }
    !(shape.list && shape.of.is_bool())
}

fn text(alloc: Global, text: &str) -> Result<Bytes, NoMemory> {
    Bytes::from_slice(alloc, text.as_bytes())
}

/// What a value is read as: its JSON text, `none` for null, or the name of its fault.
fn read_as(alloc: Global, json: Value, shape: Shape) -> Result<Bytes, NoMemory> {
    if !is_shape(shape) {
        return text(alloc, "no shape");
    }
    match read_cell(alloc, json, shape) {
        Ok(Some(given)) => given_text(alloc, &given, Some(DataType::ShortText)),
        Ok(None) => text(alloc, "none"),
        Err(ReadFault::Refused(kind)) => text(alloc, kind.name()),
        Err(ReadFault::NoMemory) => Err(NoMemory),
    }
}

fn reads(alloc: Global, json: &str, shape: Shape, wanted: &str) -> Result<bool, NoMemory> {
    match Value::from_str(alloc, json) {
        Ok(json) => Ok(read_as(alloc, json, shape)?.as_slice() == wanted.as_bytes()),
        Err(_) => Ok(false),
    }
}

/// A whole number type, its ends, and the numbers next to them.
#[derive(Clone, Copy)]
struct Ends {
    of: DataType,
    least: &'static str,
    greatest: &'static str,
    below: &'static str,
    above: &'static str,
}

fn ends_of(
    of: DataType,
    least: &'static str,
    greatest: &'static str,
    below: &'static str,
    above: &'static str,
) -> Ends {
    Ends {
        of,
        least,
        greatest,
        below,
        above,
    }
}

fn keeps_ends(alloc: Global, ends: &Ends) -> Result<bool, NoMemory> {
    let shape = one(ends.of);
    Ok(
        reads(alloc, ends.least, shape, ends.least)?
            && reads(alloc, ends.greatest, shape, ends.greatest)?
            && reads(alloc, ends.below, shape, "OutOfRange")?
            && reads(alloc, ends.above, shape, "OutOfRange")?,
    )
}

#[test]
fn whole_numbers_are_taken_up_to_the_ends_of_their_type(rt: HostRuntime) -> Result<(), Fail> {
    let table = [
        ends_of(DataType::Int8, "-128", "127", "-129", "128"),
        ends_of(DataType::Int16, "-32768", "32767", "-32769", "32768"),
        ends_of(
            DataType::Int32,
            "-2147483648",
            "2147483647",
            "-2147483649",
            "2147483648",
        ),
        ends_of(DataType::UInt8, "0", "255", "-1", "256"),
        ends_of(DataType::UInt16, "0", "65535", "-1", "65536"),
        ends_of(DataType::UInt32, "0", "4294967295", "-1", "4294967296"),
    ];
    for ends in table {
        assert!(rt; keeps_ends(rt.alloc(), &ends)?);
    }
    Ok(())
}

/// A JSON text, a shape, and what it is read as.
#[derive(Clone, Copy)]
struct Case {
    json: &'static str,
    shape: Shape,
    wanted: &'static str,
}

fn case_of(json: &'static str, shape: Shape, wanted: &'static str) -> Case {
    Case {
        json,
        shape,
        wanted,
    }
}

#[test]
fn whole_numbers_of_64_bits_end_where_numbers_turn_to_floats(rt: HostRuntime) -> Result<(), Fail> {
    let signed = one(DataType::Int64);
    let unsigned = one(DataType::UInt64);
    let table = [
        case_of("-9223372036854775808", signed, "-9223372036854775808"),
        case_of("9223372036854775807", signed, "9223372036854775807"),
        case_of("-9223372036854775809", signed, "FloatRefused"),
        case_of("9223372036854775808", signed, "OutOfRange"),
        case_of("0", unsigned, "0"),
        case_of("18446744073709551615", unsigned, "18446744073709551615"),
        case_of("-1", unsigned, "OutOfRange"),
        case_of("18446744073709551616", unsigned, "FloatRefused"),
        case_of("1.0", signed, "FloatRefused"),
        case_of("1e2", signed, "FloatRefused"),
        case_of("-0", signed, "FloatRefused"),
    ];
    for case in table {
        assert!(rt; reads(rt.alloc(), case.json, case.shape, case.wanted)?);
    }
    Ok(())
}

/// A JSON text, and what it is read as at each of `shapes`.
#[derive(Clone, Copy)]
struct Kinds {
    json: &'static str,
    wanted: [&'static str; 7],
}

fn kinds_of(json: &'static str, wanted: [&'static str; 7]) -> Kinds {
    Kinds { json, wanted }
}

/// `Bool`, `Int8`, `Text`, a reference by `ShortText`, and lists of the last three.
fn shapes() -> [Shape; 7] {
    [
        one(DataType::Bool),
        one(DataType::Int8),
        one(DataType::Text),
        reference(DataType::ShortText),
        many(DataType::Int8),
        many(DataType::Text),
        references(DataType::ShortText),
    ]
}

fn reads_each(alloc: Global, kinds: &Kinds) -> Result<bool, NoMemory> {
    for (shape, wanted) in shapes().iter().zip(kinds.wanted.iter()) {
        if !reads(alloc, kinds.json, *shape, wanted)? {
            return Ok(false);
        }
    }
    Ok(true)
}

const BAD: &str = "BadValue";

const FLOAT: &str = "FloatRefused";

#[test]
fn each_shape_takes_its_own_kind_of_json(rt: HostRuntime) -> Result<(), Fail> {
    let table = [
        kinds_of(
            "null",
            ["none", "none", "none", "none", "none", "none", "none"],
        ),
        kinds_of("true", ["true", BAD, BAD, BAD, BAD, BAD, BAD]),
        kinds_of("7", [BAD, "7", BAD, BAD, BAD, BAD, BAD]),
        kinds_of("1.5", [FLOAT, FLOAT, FLOAT, FLOAT, FLOAT, FLOAT, FLOAT]),
        kinds_of("\"a\"", [BAD, BAD, "\"a\"", "\"a\"", BAD, BAD, BAD]),
        kinds_of("\"\"", [BAD, BAD, "\"\"", "\"\"", BAD, BAD, BAD]),
        kinds_of("[]", [BAD, BAD, BAD, BAD, "[]", "[]", "[]"]),
        kinds_of("[1.5]", [BAD, BAD, BAD, BAD, FLOAT, FLOAT, FLOAT]),
        kinds_of("[null]", [BAD, BAD, BAD, BAD, BAD, BAD, BAD]),
        kinds_of("{\"a\":1.5}", [BAD, BAD, BAD, BAD, BAD, BAD, BAD]),
    ];
    for kinds in table {
        assert!(rt; reads_each(rt.alloc(), &kinds)?);
    }
    Ok(())
}

#[test]
fn the_first_wrong_element_of_a_list_counts(rt: HostRuntime) -> Result<(), Fail> {
    let numbers = many(DataType::Int8);
    let texts = many(DataType::Text);
    let table = [
        case_of("[1,-2,3]", numbers, "[1,-2,3]"),
        case_of("[1,300,\"a\"]", numbers, "OutOfRange"),
        case_of("[1,\"a\",300]", numbers, "BadValue"),
        case_of("[1,1.5,\"a\"]", numbers, "FloatRefused"),
        case_of("[\"a\",\"\",\"é\\n\"]", texts, "[\"a\",\"\",\"é\\n\"]"),
        case_of("[\"a\",1,1.5]", texts, "BadValue"),
        case_of("[\"a\",1.5,1]", texts, "FloatRefused"),
        case_of(
            "[\"\",\"a\",\"\",\"b\",\"a\"]",
            references(DataType::ShortText),
            "[\"a\",\"b\",\"a\"]",
        ),
        case_of("[\"\",null]", references(DataType::ShortText), "BadValue"),
        case_of("[255,0]", references(DataType::UInt8), "[255,0]"),
        case_of("256", reference(DataType::UInt8), "OutOfRange"),
        case_of("7", reference(DataType::UInt8), "7"),
    ];
    for case in table {
        assert!(rt; reads(rt.alloc(), case.json, case.shape, case.wanted)?);
    }
    Ok(())
}

/// A text of so many bytes.
fn letters(alloc: Global, length: usize) -> Result<String, NoMemory> {
    let letters = vec![in alloc; b'k'; length]?;
    Ok(String::from_utf8(letters).unwrap_or(String::new(alloc)))
}

/// What a text of so many bytes is refused for.
fn fault_of_length(
    alloc: Global,
    of: DataType,
    length: usize,
) -> Result<Option<FaultKind>, NoMemory> {
    let shape = one(of);
    if !is_shape(shape) {
        return Ok(Some(FaultKind::BadType));
    }
    match read_cell(alloc, Value::String(letters(alloc, length)?), shape) {
        Ok(_) => Ok(None),
        Err(ReadFault::Refused(kind)) => Ok(Some(kind)),
        Err(ReadFault::NoMemory) => Err(NoMemory),
    }
}

/// A type of texts, the length of the longest, and one more.
#[derive(Clone, Copy)]
struct Limit {
    of: DataType,
    longest: usize,
    longer: usize,
}

fn limit_of(of: DataType, longest: usize, longer: usize) -> Limit {
    Limit {
        of,
        longest,
        longer,
    }
}

#[test]
fn texts_are_taken_up_to_their_limit(rt: HostRuntime) -> Result<(), Fail> {
    let table = [
        limit_of(DataType::ShortText, 4096, 4097),
        limit_of(DataType::Text, 65_536, 65_537),
        limit_of(DataType::LongText, 16_777_216, 16_777_217),
    ];
    for limit in table {
        let longest = fault_of_length(rt.alloc(), limit.of, limit.longest)?;
        assert!(rt; longest.is_none());
        let longer = fault_of_length(rt.alloc(), limit.of, limit.longer)?;
        assert!(rt; longer == Some(FaultKind::TooLong));
    }
    Ok(())
}

/// What a list of so many nulls is read as, which are no elements of any list.
fn nulls_read_as(alloc: Global, length: usize) -> Result<Bytes, NoMemory> {
    let mut nulls = Vec::with_capacity(alloc, length)?;
    for _ in 0..length {
        nulls.push(Value::Null)?;
    }
    read_as(alloc, Value::Array(nulls), many(DataType::Text))
}

#[test]
fn the_length_of_a_list_is_looked_at_before_its_elements(rt: HostRuntime) -> Result<(), Fail> {
    assert!(rt; nulls_read_as(rt.alloc(), 65_536)?.as_slice() == b"BadValue".as_slice());
    assert!(rt; nulls_read_as(rt.alloc(), 65_537)?.as_slice() == b"TooLong".as_slice());
    Ok(())
}

/// What a key, or what stands in its place, is shown as.
fn shown(alloc: Global, key: Result<Key, ReadFault>) -> Result<Bytes, NoMemory> {
    match key {
        Ok(Key::Number(number)) => given_text(alloc, &Given::Int(number), None),
        Ok(Key::Text(text)) => Ok(text),
        Err(ReadFault::Refused(kind)) => text(alloc, kind.name()),
        Err(ReadFault::NoMemory) => Err(NoMemory),
    }
}

/// Whether this is what a value of JSON is read as by way of a key.
fn reads_key(alloc: Global, json: &str, of: DataType, wanted: &str) -> Result<bool, NoMemory> {
    if !of.is_key_type() {
        return Ok(false);
    }
    match Value::from_str(alloc, json) {
        Ok(json) => Ok(shown(alloc, read_key(alloc, json, of))?.as_slice() == wanted.as_bytes()),
        Err(_) => Ok(false),
    }
}

/// A text, a type of keys, and the key that it gives.
#[derive(Clone, Copy)]
struct KeyCase {
    text: &'static str,
    of: DataType,
    wanted: &'static str,
}

fn key_case(text: &'static str, of: DataType, wanted: &'static str) -> KeyCase {
    KeyCase { text, of, wanted }
}

#[test]
fn keys_are_read_from_json(rt: HostRuntime) -> Result<(), Fail> {
    let table = [
        key_case("\"a\"", DataType::ShortText, "a"),
        key_case("\"\"", DataType::ShortText, "EmptyKey"),
        key_case("null", DataType::ShortText, "BadValue"),
        key_case("1", DataType::ShortText, "BadValue"),
        key_case("1.5", DataType::ShortText, "FloatRefused"),
        key_case("[\"a\"]", DataType::ShortText, "BadValue"),
        key_case("-7", DataType::Int8, "-7"),
        key_case("128", DataType::Int8, "OutOfRange"),
        key_case("\"7\"", DataType::Int8, "BadValue"),
    ];
    for case in table {
        assert!(rt; reads_key(rt.alloc(), case.text, case.of, case.wanted)?);
    }
    Ok(())
}

/// Whether this is what a text is read as by way of a key.
fn writes_key(alloc: Global, text: &str, of: DataType, wanted: &str) -> Result<bool, NoMemory> {
    if !of.is_key_type() {
        return Ok(false);
    }
    let key = key_of_text(alloc, text, of);
    Ok(shown(alloc, key)?.as_slice() == wanted.as_bytes())
}

#[test]
fn keys_are_read_from_texts(rt: HostRuntime) -> Result<(), Fail> {
    let table = [
        key_case("-0", DataType::UInt8, "0"),
        key_case("007", DataType::UInt8, "7"),
        key_case("+1", DataType::Int8, "BadValue"),
        key_case("", DataType::Int8, "BadValue"),
        key_case("-", DataType::Int8, "BadValue"),
        key_case(" 1", DataType::Int8, "BadValue"),
        key_case("127", DataType::Int8, "127"),
        key_case("128", DataType::Int8, "OutOfRange"),
        key_case("-128", DataType::Int8, "-128"),
        key_case("-1", DataType::UInt64, "OutOfRange"),
        key_case(
            "-170141183460469231731687303715884105729",
            DataType::Int8,
            "OutOfRange",
        ),
        key_case(
            "999999999999999999999999999999999999999999",
            DataType::UInt64,
            "OutOfRange",
        ),
        key_case(
            "999999999999999999999999999999999999999999x",
            DataType::UInt64,
            "BadValue",
        ),
        key_case("", DataType::ShortText, "EmptyKey"),
        key_case("+1", DataType::ShortText, "+1"),
    ];
    for case in table {
        assert!(rt; writes_key(rt.alloc(), case.text, case.of, case.wanted)?);
    }
    Ok(())
}

#[test]
fn a_text_key_has_4096_bytes_at_most(rt: HostRuntime) -> Result<(), Fail> {
    let longest = letters(rt.alloc(), 4096)?;
    assert!(rt;
        writes_key(
            rt.alloc(),
            longest.as_str(),
            DataType::ShortText,
            longest.as_str()
        )?
    );
    let too_long = letters(rt.alloc(), 4097)?;
    assert!(rt;
        writes_key(
            rt.alloc(),
            too_long.as_str(),
            DataType::ShortText,
            "TooLong"
        )?
    );
    Ok(())
}

#[test]
fn an_empty_reference_is_shown_by_the_type_of_its_keys(rt: HostRuntime) -> Result<(), Fail> {
    let nothing = Given::Ref(None);
    let to_texts = given_text(rt.alloc(), &nothing, Some(DataType::ShortText))?;
    assert!(rt; to_texts.as_slice() == b"\"\"".as_slice());
    let to_numbers = given_text(rt.alloc(), &nothing, Some(DataType::Int8))?;
    assert!(rt; to_numbers.as_slice() == b"null".as_slice());
    let truth = given_text(rt.alloc(), &Given::Bool(false), None)?;
    assert!(rt; truth.as_slice() == b"false".as_slice());
    let least = given_text(rt.alloc(), &Given::Int(i128::MIN), None)?;
    assert!(rt; least.as_slice() == b"-170141183460469231731687303715884105728".as_slice());
    Ok(())
}

#[test]
fn keys_are_copied_and_ordered(rt: HostRuntime) -> Result<(), Fail> {
    let a = Key::Text(text(rt.alloc(), "a")?);
    let b = Key::Text(text(rt.alloc(), "b")?);
    assert!(rt; a.try_clone()? == a);
    assert!(rt; a < b);
    assert!(rt; Key::Number(2) < Key::Number(10));
    assert!(rt; Key::Number(10).try_clone()? == Key::Number(10));
    Ok(())
}

#[test]
fn a_cell_starts_empty(rt: HostRuntime) -> Result<(), Fail> {
    let empty = Cell::default_of(rt.alloc(), one(DataType::Text))?;
    assert!(rt; matches!(&empty, Cell::Text(text) if text.as_slice().is_empty()));
    let zero = Cell::default_of(rt.alloc(), one(DataType::UInt8))?;
    assert!(rt; matches!(&zero, Cell::Int(0)));
    let nothing = Cell::default_of(rt.alloc(), reference(DataType::ShortText))?;
    assert!(rt; matches!(&nothing, Cell::Ref(RecordId(0))));
    let none = Cell::default_of(rt.alloc(), references(DataType::ShortText))?;
    assert!(rt; matches!(&none, Cell::RefList(ids) if ids.as_slice().is_empty()));
    Ok(())
}
