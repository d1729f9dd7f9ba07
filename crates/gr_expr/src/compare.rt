// Comparisons of values.
ghost use Rattle.std.specs.Prelude.{◌≡◌};
ghost use Rattle.std.specs.Option.{option_map};
ghost use Rattle.gr_base.specs.Compare.{is_met};
ghost use Rattle.gr_expr.specs.Inside.Lent.{literal};
ghost use Rattle.gr_expr.specs.Score.{end_cmp, holds, is_between, is_met_by, is_met_by_truths, is_true};

use crate::value::Value;
use gr_base::Cmp;
use std::cmp::Ordering;

fn is_met(cmp: Cmp, ordering: Ordering) -> bool
    ensures { result ≡ is_met cmp ordering }
{
    match cmp {
        Cmp::Eq => ordering.is_eq(),
        Cmp::Ne => ordering.is_ne(),
        Cmp::Lt => ordering.is_lt(),
        Cmp::Le => ordering.is_le(),
        Cmp::Gt => ordering.is_gt(),
        Cmp::Ge => ordering.is_ge(),
    }
}

fn is_met_by_truths(cmp: Cmp, left: bool, right: bool) -> bool
    ensures { result ≡ is_met_by_truths cmp left right }
{
    match cmp {
        Cmp::Eq => left == right,
        Cmp::Ne => left != right,
        _ => false,
    }
}

fn is_met_by(cmp: Cmp, left: Value<'_>, right: Value<'_>) -> bool
    ensures { result ≡ is_met_by cmp (literal left.entry) (literal right.entry) }
{
    match (left, right) {
        (Value::Number(left), Value::Number(right)) => is_met(cmp, left.cmp(&right)),
        (Value::Text(left), Value::Text(right)) => is_met(cmp, left.cmp(right)),
        (Value::Truth(left), Value::Truth(right)) => is_met_by_truths(cmp, left, right),
        _ => false,
    }
}

/// Whether a comparison of two values holds. With no value it does not.
pub(crate) fn holds(cmp: Cmp, left: Option<Value<'_>>, right: Option<Value<'_>>) -> bool
    ensures { result ≡ holds cmp (option_map literal left.entry) (option_map literal right.entry) }
{
    match (left, right) {
        (Some(left), Some(right)) => is_met_by(cmp, left, right),
        _ => false,
    }
}

fn end_cmp(included: bool) -> Cmp
    ensures { result ≡ end_cmp included }
{
    if included { Cmp::Le } else { Cmp::Lt }
}

/// Whether a value lies between two ends.
pub(crate) fn is_between(
    middle: Option<Value<'_>>,
    low: Option<Value<'_>>,
    with_low: bool,
    high: Option<Value<'_>>,
    with_high: bool,
) -> bool
    ensures { result ≡ is_between (option_map literal middle.entry) (option_map literal low.entry) with_low (option_map literal high.entry) with_high }
{
    holds(end_cmp(with_low), low, middle) && holds(end_cmp(with_high), middle, high)
}

/// Whether a value is `true`.
pub(crate) fn is_true(value: Option<Value<'_>>) -> bool
    ensures { result ≡ is_true (option_map literal value.entry) }
{
    matches!(value, Some(Value::Truth(true)))
}
