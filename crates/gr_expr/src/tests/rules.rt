// The rules of values and scores, each by small examples that were worked out by hand.
use crate::calc::{combined, minus};
use crate::compare::{holds, is_between, is_true};
use crate::scores::{joined, multiplied};
use crate::seek::found_in;
use crate::value::Value;
use crate::{Arith, By, Join, LEAST_WHOLE, MOST_WHOLE, Seek};
use gr_base::{Cmp, MOST_SCORE};

fn number(number: i128) -> Option<Value<'static>> {
    Some(Value::Number(number))
}

/// The number that two numbers give, and none where that is no value.
fn calculated(arith: Arith, left: i128, right: i128) -> Option<i128> {
    whole(combined(arith, number(left), number(right)))
}

fn whole(value: Option<Value<'_>>) -> Option<i128> {
    match value {
        Some(Value::Number(number)) => Some(number),
        _ => None,
    }
}

#[test]
fn numbers_are_exact_to_the_ends_of_the_range(rt: HostRuntime) {
    assert_eq!(rt;
        calculated(Arith::Add, MOST_WHOLE, 0),
        Some(18_446_744_073_709_551_615)
    );
    assert_eq!(rt; calculated(Arith::Add, MOST_WHOLE, 1), None);
    assert_eq!(rt;
        calculated(Arith::Sub, LEAST_WHOLE, 0),
        Some(-9_223_372_036_854_775_808)
    );
    assert_eq!(rt; calculated(Arith::Sub, LEAST_WHOLE, 1), None);
    assert_eq!(rt; calculated(Arith::Mul, MOST_WHOLE, MOST_WHOLE), None);
    assert_eq!(rt;
        whole(minus(number(LEAST_WHOLE))),
        Some(9_223_372_036_854_775_808)
    );
    assert_eq!(rt; whole(minus(number(MOST_WHOLE))), None);
}

#[test]
fn a_quotient_is_cut_towards_zero_and_a_remainder_has_the_left_sign(rt: HostRuntime) {
    assert_eq!(rt; calculated(Arith::Div, -7, 2), Some(-3));
    assert_eq!(rt; calculated(Arith::Div, 7, -2), Some(-3));
    assert_eq!(rt; calculated(Arith::Rem, -7, 2), Some(-1));
    assert_eq!(rt; calculated(Arith::Rem, 7, -2), Some(1));
    assert_eq!(rt; calculated(Arith::Div, 1, 0), None);
    assert_eq!(rt; calculated(Arith::Rem, 1, 0), None);
}

#[test]
fn no_value_meets_no_comparison(rt: HostRuntime) {
    assert!(rt; holds(Cmp::Eq, number(1), number(1)));
    assert!(rt; !holds(Cmp::Eq, None, None));
    assert!(rt; !holds(Cmp::Ne, None, number(1)));
    assert!(rt; !is_between(number(1), None, true, number(2), true));
}

#[test]
fn texts_are_compared_by_bytes_and_truths_have_no_order(rt: HostRuntime) {
    let umlaut = Some(Value::Text("ä".as_bytes()));
    let letter = Some(Value::Text(b"z"));
    let truth = Some(Value::Truth(true));
    assert!(rt; holds(Cmp::Gt, umlaut, letter));
    assert!(rt; holds(Cmp::Eq, truth, truth));
    assert!(rt; !holds(Cmp::Le, truth, truth));
    assert!(rt; is_true(truth));
}

#[test]
fn an_end_counts_where_it_is_included(rt: HostRuntime) {
    assert!(rt; is_between(number(1), number(1), true, number(2), true));
    assert!(rt; !is_between(number(1), number(1), false, number(2), true));
    assert!(rt; !is_between(number(2), number(1), true, number(2), false));
}

#[test]
fn scores_are_joined_and_stand_still(rt: HostRuntime) {
    assert_eq!(rt; joined(Join::Or, 2, 3), 5);
    assert_eq!(rt; joined(Join::And, 2, 3), 5);
    assert_eq!(rt; joined(Join::And, 2, 0), 0);
    assert_eq!(rt; joined(Join::Without, 2, 0), 2);
    assert_eq!(rt; joined(Join::Without, 2, 1), 0);
    assert_eq!(rt; joined(Join::Or, MOST_SCORE, 1), 2_147_483_647);
    assert_eq!(rt; multiplied(1000, 3), 3000);
    assert_eq!(rt; multiplied(1000, MOST_SCORE), 2_147_483_647);
}

#[test]
fn a_text_is_searched_by_characters_or_by_words(rt: HostRuntime) {
    assert_eq!(rt; found_in(Seek::Match, By::Chars, "aaa", "aa"), 2);
    assert_eq!(rt; found_in(Seek::Match, By::Words, "red blue red", "red"), 2);
    assert_eq!(rt; found_in(Seek::Match, By::Words, "reds", "red"), 0);
    assert_eq!(rt;
        found_in(Seek::Prefix, By::Words, "blue reds red", "red"),
        2
    );
    assert_eq!(rt; found_in(Seek::Prefix, By::Words, "blue red", ""), 2);
    assert_eq!(rt; found_in(Seek::Prefix, By::Chars, "blue red", "red"), 0);
    assert_eq!(rt; found_in(Seek::Prefix, By::Element, "red", "re"), 1);
    assert_eq!(rt; found_in(Seek::Suffix, By::Words, "blue red", "ue red"), 1);
    assert_eq!(rt; found_in(Seek::Suffix, By::Chars, "red", ""), 1);
    assert_eq!(rt; found_in(Seek::Match, By::Chars, "red", ""), 0);
}
