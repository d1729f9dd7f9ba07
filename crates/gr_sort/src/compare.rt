// How values and rows compare.
ghost use Rattle.std.specs.Prelude.{◌≡◌};
ghost use Rattle.gr_sort.specs.Inside.Rows.{keyed_cmp, keyed_row, literal, worth};
ghost use Rattle.gr_sort.specs.Order.{literal_cmp, turned, worth_cmp};

use crate::SortKey;
use crate::row::{Row, value_at};
use crate::value::Value;
use std::cmp::Ordering;

/// Two rows by the keys in order, and where none tells them apart by ascending id.
pub(crate) fn compare_rows(keys: &[SortKey], left: &Row<'_>, right: &Row<'_>) -> Ordering
    ensures { result ≡ keyed_cmp keys.now (keyed_row left.now) (keyed_row right.now) }
{
    for at in 0..keys.len() {
        match by_key(&keys[at], value_at(left, at), value_at(right, at)) {
            Ordering::Equal => {}
            order => return order,
        }
    }
    left.hit.0.0.cmp(&right.hit.0.0)
}

// Two values of a key, the other way round where it is descending.
fn by_key(key: &SortKey, left: Option<Value<'_>>, right: Option<Value<'_>>) -> Ordering
    ensures { result ≡ turned key.now.descending (worth_cmp (worth left.entry) (worth right.entry)) }
{
    let order = compare_worths(left, right);
    if key.descending {
        order.reverse()
    } else {
        order
    }
}

/// Two values, of which no value is the lowest.
pub fn compare_worths(left: Option<Value<'_>>, right: Option<Value<'_>>) -> Ordering
    ensures { result ≡ worth_cmp (worth left.entry) (worth right.entry) }
{
    match (left, right) {
        (None, None) => Ordering::Equal,
        (None, Some(_)) => Ordering::Less,
        (Some(_), None) => Ordering::Greater,
        (Some(left), Some(right)) => compare_values(left, right),
    }
}

// Two values: truths are below numbers, and numbers below texts.
fn compare_values(left: Value<'_>, right: Value<'_>) -> Ordering
    ensures { result ≡ literal_cmp (literal left.entry) (literal right.entry) }
{
    match (left, right) {
        (Value::Truth(left), Value::Truth(right)) => left.cmp(&right),
        (Value::Number(left), Value::Number(right)) => left.cmp(&right),
        (Value::Text(left), Value::Text(right)) => left.cmp(right),
        (Value::Truth(_), _) | (Value::Number(_), Value::Text(_)) => Ordering::Less,
        (Value::Number(_) | Value::Text(_), _) => Ordering::Greater,
    }
}
