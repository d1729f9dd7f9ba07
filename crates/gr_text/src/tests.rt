// Strings, paths and numbers, by hand.
use super::*;
use gr_base::{FaultKind, NoMemory};
use std::alloc::Global;
use std::test::Fail;

/// What stands after a quote, and the text and the length of the string there.
struct StringCase(&'static str, Option<(&'static str, usize)>);

const STRINGS: [StringCase; 10] = [
    StringCase("\"", Some(("", 1))),
    StringCase("abc\" x", Some(("abc", 4))),
    StringCase("a\\\"b\"c\"", Some(("a\"b", 5))),
    StringCase("\\\\\"", Some(("\\", 3))),
    StringCase("\\n\\é\" ", Some(("né", 6))),
    StringCase("é\n\t\"", Some(("é\n\t", 5))),
    StringCase("", None),
    StringCase("abc", None),
    StringCase("abc\\", None),
    StringCase("abc\\\"", None),
];

fn is_found(alloc: Global, case: &StringCase) -> Result<bool, NoMemory> {
    let StringCase(bytes, wanted) = case;
    Ok(match (&string_from(alloc, bytes.as_bytes())?, wanted) {
        (Some((text, len)), Some((wanted, wanted_len))) => {
            text.as_slice() == wanted.as_bytes() && *len == *wanted_len
        }
        (None, None) => true,
        _ => false,
    })
}

#[test]
fn a_string_ends_at_the_first_quote_without_an_escape(rt: HostRuntime) -> Result<(), Fail> {
    for case in &STRINGS {
        assert!(rt; is_found(rt.alloc(), case)?, "{}", case.0);
    }
    Ok(())
}

#[test]
fn a_path_takes_no_dot_without_a_name(rt: HostRuntime) {
    let paths = [
        ("a", 1),
        ("a.", 1),
        ("a.b1._c", 7),
        ("a.b1._c.", 7),
        ("a..b", 1),
        ("a.1", 1),
        ("_1A.z9 x", 6),
        ("aé", 1),
        ("1a", 0),
        (".a", 0),
        ("", 0),
    ];
    for (bytes, len) in paths {
        assert_eq!(rt; path_len(bytes.as_bytes()), len, "{bytes}");
    }
}

#[test]
fn a_number_has_64_bits(rt: HostRuntime) {
    let numbers = [
        ("0", 1, Some(0)),
        ("007,", 3, Some(7)),
        ("5n", 1, Some(5)),
        ("18446744073709551615", 20, Some(u64::MAX)),
        ("18446744073709551616", 20, None),
        ("00000018446744073709551615 ", 26, Some(u64::MAX)),
        ("99999999999999999999999", 23, None),
    ];
    for (bytes, len, number) in numbers {
        assert_eq!(rt; digits_len(bytes.as_bytes()), len, "{bytes}");
        assert_eq!(rt;
            number_from(bytes.as_bytes(), digits_len(bytes.as_bytes())),
            number,
            "{bytes}"
        );
    }
}

#[test]
fn white_space_is_four_characters(rt: HostRuntime) {
    for (bytes, len) in [
        ("", 0),
        ("x ", 0),
        (" \t\n\r x", 5),
        ("\u{b}", 0),
        ("\u{a0}", 0),
    ] {
        assert_eq!(rt; white_space_len(bytes.as_bytes()), len);
    }
}

#[test]
fn a_fault_shows_its_kind_and_its_place(rt: HostRuntime) -> Result<(), Fail> {
    let refusal = TextRefusal {
        kind: FaultKind::BadScript,
        at: 7,
    };
    assert_eq!(rt; refusal.to_string(rt.alloc())?.as_str(), "BadScript at 7");
    Ok(())
}
