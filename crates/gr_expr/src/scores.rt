// The score of a condition at a record.
ghost use Rattle.std.specs.Prelude.{◌≡◌, ℕ, ◌+◌, ◌*◌, ◌||◌, true, map};
ghost use Rattle.std.specs.List.{AllByRecursion, sum_by};
ghost use Rattle.std.specs.Option.{option_map};
ghost use Rattle.gr_expr.specs.Fits.{Fits, FitsWeighted};
ghost use Rattle.gr_expr.specs.Inside.Parts.{FitsCombined, FitsJoined, FitsTerm};
ghost use Rattle.gr_expr.specs.Seeks.{capped};
ghost use Rattle.gr_expr.specs.Values.{calc_worth, combined};
ghost use Rattle.gr_expr.specs.Inside.Lent.{literal};
ghost use Rattle.gr_expr.specs.Score.{chain_score, combined_of, holds, is_among, joined, joined_of, score_of, weighted_score, worth_of};

use crate::calc::{combined, minus};
use crate::compare::{holds, is_between, is_true};
use crate::seek::{one_if, seek};
use crate::value::{Value, path_value};
use crate::{CombinedTerm, Expr, Join, JoinedExpr, Literal, Rows, Term, WeightedLeaf};
use gr_base::{Cmp, MOST_SCORE, RecordId};

/// The score of a condition at a record, at most `MOST_SCORE`. The record is a hit where it is above 0. It takes no memory.
#[cycle(scores)]
pub fn score<R: Rows>(rows: &R, id: RecordId, expr: &Expr) -> u32
    requires { Fits (R.tables rows.now) expr.now }
    ensures { result ≡ score_of (R.tables rows.now) id expr.now }
{
    match expr {
        Expr::All => 1,
        Expr::Truth(truth) => one_if(*truth),
        Expr::Flag(path) => one_if(is_true(path_value(rows, id, path))),
        Expr::Chain(first, rest) => {
            let first = score(rows, id, first.get());
            chain(rows, id, first, rest.as_slice())
        }
        Expr::Not(of) => one_if(score(rows, id, of.get()) == 0),
        Expr::Compare(cmp, left, right) => {
            one_if(holds(*cmp, value_of(rows, id, left), value_of(rows, id, right)))
        }
        Expr::Between(middle, low, with_low, high, with_high) => {
            let middle = value_of(rows, id, middle);
            let low = value_of(rows, id, low);
            let high = value_of(rows, id, high);
            one_if(is_between(middle, low, *with_low, high, *with_high))
        }
        Expr::InValues(sought, others) => {
            let sought = value_of(rows, id, sought);
            one_if(is_among(rows, id, sought, others.as_slice()))
        }
        Expr::Seek(leaf) => seek(rows, id, leaf),
        Expr::Weighted(leaves) => weighted(rows, id, leaves.as_slice()),
    }
}

// What a term is worth at a record.
#[cycle(scores)]
fn value_of<'a, R: Rows>(rows: &'a R, id: RecordId, term: &'a Term) -> Option<Value<'a>>
    requires { FitsTerm (R.tables rows.now) term.now }
    ensures { option_map literal result ≡ worth_of (R.tables rows.now) id term.now }
{
    match term {
        Term::Literal(written) => Some(lent(written)),
        Term::Cell(path) => path_value(rows, id, path),
        Term::Truth(expr) => Some(Value::Truth(score(rows, id, expr.get()) > 0)),
        Term::Calc(first, rest) => {
            let first = value_of(rows, id, first.get());
            calc(rows, id, first, rest.as_slice())
        }
        Term::Minus(of) => minus(value_of(rows, id, of.get())),
    }
}

fn lent(written: &Literal) -> Value<'_>
    ensures { literal result ≡ written.now }
{
    match written {
        Literal::Number(number) => Value::Number(*number),
        Literal::Text(text) => Value::Text(text.as_slice()),
        Literal::Truth(truth) => Value::Truth(*truth),
    }
}

// Numbers combined with the one before them, from left to right.
#[cycle(scores)]
fn calc<'a, R: Rows>(
    rows: &'a R,
    id: RecordId,
    first: Option<Value<'a>>,
    rest: &'a [CombinedTerm],
) -> Option<Value<'a>>
    requires { AllByRecursion (FitsCombined (R.tables rows.now)) rest.now }
    ensures { option_map literal result ≡ calc_worth (option_map literal first.entry) (map (combined_of (R.tables rows.now) id) rest.now) }
{
    let mut number = first;
    for next in rest {
        number = next_number(rows, id, number, next);
    }
    number
}

// A number combined with the one after it.
#[cycle(scores)]
fn next_number<'a, R: Rows>(
    rows: &'a R,
    id: RecordId,
    left: Option<Value<'a>>,
    next: &'a CombinedTerm,
) -> Option<Value<'a>>
    requires { FitsCombined (R.tables rows.now) next.now }
    ensures { let right = combined_of (R.tables rows.now) id next.now in option_map literal result ≡ combined right.0 (option_map literal left.entry) right.1 }
{
    combined(next.arith, left, value_of(rows, id, &next.of))
}

// Scores joined with the one before them, from left to right.
#[cycle(scores)]
fn chain<R: Rows>(rows: &R, id: RecordId, first: u32, rest: &[JoinedExpr]) -> u32
    requires { AllByRecursion (FitsJoined (R.tables rows.now)) rest.now }
    ensures { result ≡ chain_score first (map (joined_of (R.tables rows.now) id) rest.now) }
{
    let mut all = first;
    for next in rest {
        all = next_score(rows, id, all, next);
    }
    all
}

// A score joined with the one after it. Where that cannot change it, it is not looked at.
#[cycle(scores)]
fn next_score<R: Rows>(rows: &R, id: RecordId, left: u32, next: &JoinedExpr) -> u32
    requires { FitsJoined (R.tables rows.now) next.now }
    ensures { let right = joined_of (R.tables rows.now) id next.now in result ≡ joined right.0 left right.1 }
{
    if stays_none(next.join, left) {
        0
    } else {
        joined(next.join, left, score(rows, id, &next.of))
    }
}

// Whether a score is 0, and stays 0 whatever is joined to it.
fn stays_none(join: Join, left: u32) -> bool
    ensures { result ≡ true → (right : ℕ) → joined join left right ≡ 0 }
{
    match join {
        Join::And | Join::Without => left == 0,
        Join::Or => false,
    }
}

/// Two scores joined.
pub(crate) fn joined(join: Join, left: u32, right: u32) -> u32
    ensures { result ≡ joined join left right }
{
    match join {
        Join::And if left > 0 && right > 0 => sum(left, right),
        Join::And => 0,
        Join::Or => sum(left, right),
        Join::Without if right == 0 => left,
        Join::Without => 0,
    }
}

fn sum(left: u32, right: u32) -> u32
    ensures { result ≡ capped (left + right) }
{
    left.saturating_add(right).min(MOST_SCORE)
}

// Whether a value is one of some. Where one of them all is no value it is not.
#[cycle(scores)]
fn is_among<'a, R: Rows>(
    rows: &'a R,
    id: RecordId,
    sought: Option<Value<'a>>,
    others: &'a [Term],
) -> bool
    requires { AllByRecursion (FitsTerm (R.tables rows.now)) others.now }
    ensures { result ≡ is_among (option_map literal sought.entry) (map (worth_of (R.tables rows.now) id) others.now) }
{
    if sought.is_none() {
        return false;
    }
    let mut found = false;
    for other in others {
        let other = value_of(rows, id, other);
        if other.is_none() {
            return false;
        }
        found = is_found(found, sought, other);
    }
    found
}

// Whether a value was found before or is this one.
fn is_found(found: bool, sought: Option<Value<'_>>, other: Option<Value<'_>>) -> bool
    ensures { result ≡ (found || holds Cmp.Eq (option_map literal sought.entry) (option_map literal other.entry)) }
{
    found || holds(Cmp::Eq, sought, other)
}

// The sum of searches, each multiplied by its weight.
fn weighted<R: Rows>(rows: &R, id: RecordId, leaves: &[WeightedLeaf]) -> u32
    requires { AllByRecursion (FitsWeighted (R.tables rows.now)) leaves.now }
    ensures { result ≡ capped (sum_by (weighted_score (R.tables rows.now) id) leaves.now) }
{
    let mut total = 0;
    for leaf in leaves {
        total = sum(total, multiplied(leaf.weight, seek(rows, id, &leaf.leaf)));
    }
    total
}

/// A score, multiplied.
pub(crate) fn multiplied(weight: u32, score: u32) -> u32
    ensures { result ≡ capped (weight * score) }
{
    weight.saturating_mul(score).min(MOST_SCORE)
}
