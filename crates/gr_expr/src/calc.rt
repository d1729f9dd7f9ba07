// Whole numbers, combined.
ghost use Rattle.std.specs.Prelude.{◌≡◌, None};
ghost use Rattle.std.specs.Option.{option_map, option_map_or};
ghost use Rattle.gr_expr.specs.Inside.Lent.{literal};
ghost use Rattle.gr_expr.specs.Values.{calculated, combined, minus_worth, whole};

use crate::Arith;
use crate::value::Value;

/// The least whole number that a term may be worth.
pub const LEAST_WHOLE: i128 = -9_223_372_036_854_775_808;

/// The greatest whole number that a term may be worth.
pub const MOST_WHOLE: i128 = 18_446_744_073_709_551_615;

// A number, where it is one that a term may be worth.
fn whole(number: i128) -> Option<Value<'static>>
    ensures { option_map literal result ≡ whole number }
{
    if LEAST_WHOLE <= number && number <= MOST_WHOLE {
        Some(Value::Number(number))
    } else {
        None
    }
}

// The remainder, which has the sign of the left side; none of a division by zero.
fn remainder(left: i128, right: i128) -> Option<i128>
    ensures { option_map_or whole result None ≡ calculated Arith.Rem left right }
{
    if right == 0 {
        None
    } else {
        Some(left.wrapping_rem(right))
    }
}

fn calculated(arith: Arith, left: i128, right: i128) -> Option<Value<'static>>
    ensures { option_map literal result ≡ calculated arith left right }
{
    let number = match arith {
        Arith::Add => left.checked_add(right),
        Arith::Sub => left.checked_sub(right),
        Arith::Mul => left.checked_mul(right),
        Arith::Div => left.checked_div(right),
        Arith::Rem => remainder(left, right),
    };
    whole(number?)
}

/// Two values combined, and no value where an operand is no number.
pub(crate) fn combined<'a>(
    arith: Arith,
    left: Option<Value<'a>>,
    right: Option<Value<'a>>,
) -> Option<Value<'a>>
    ensures { option_map literal result ≡ combined arith (option_map literal left.entry) (option_map literal right.entry) }
{
    match (left, right) {
        (Some(Value::Number(left)), Some(Value::Number(right))) => calculated(arith, left, right),
        _ => None,
    }
}

/// The unary `-`.
pub(crate) fn minus(value: Option<Value<'_>>) -> Option<Value<'static>>
    ensures { option_map literal result ≡ minus_worth (option_map literal value.entry) }
{
    match value {
        Some(Value::Number(number)) => whole(number.checked_neg()?),
        _ => None,
    }
}
