// What operators make of their parts. Each part is typed by itself before, and the first fault from the left is told.
ghost use Rattle.std.specs.Prelude.{◌≡◌, ◌++◌, ◌∷◌, ℕ, [], List, Result};
ghost use Rattle.gr_ast.specs.declared.operators.Arith.{Arith};
ghost use Rattle.gr_ast.specs.declared.operators.Join.{Join};
ghost use Rattle.gr_base.specs.Failure.{result_map};
ghost use Rattle.gr_base.specs.declared.fault.Fault.{Fault};
ghost use Rattle.gr_bind.specs.Inside.Bounds.{bound};
ghost use Rattle.gr_bind.specs.Inside.Literals.{literal_of};
ghost use Rattle.gr_bind.specs.Inside.Placed.{IsPart};
ghost use Rattle.gr_bind.specs.Inside.Told.{Tells};
ghost use Rattle.gr_bind.specs.Typing.{Part, between, calculation, chain, combined, comparison, condition, each, end_part, joined, search, sought_value, whole};
ghost use Rattle.gr_bind.specs.declared.operand.Operand.{Operand};
ghost use Rattle.gr_expr.specs.declared.typed.Expr.TheVariants as expr;
ghost use Rattle.gr_expr.specs.declared.typed.Term.TheVariants as term;

use crate::fields::leaf;
use crate::literals::{end_of, sought_literal};
use crate::operand::{Operand, ValueKind};
use crate::part::TypedPart;
use crate::refused::refused;
use gr_base::{Cmp, Failure, Fault, FaultKind};
use gr_expr::{Arith, Ast, CombinedTerm, Expr, Join, JoinedExpr, Literal, Seek, Term};
use gr_schema::Schema;
use gr_values::Path;
use sqlite_items::{Boxed, Items};
use std::alloc::Global;

// A condition behind what joins it.
pub(crate) fn joined(alloc: Global, join: Join, of: TypedPart) -> Result<JoinedExpr, Failure<Fault>>
    ensures { (part : Part) → IsPart of part → Tells result (joined (join, part)) }
{
    let of = of.condition(alloc)?;
    Ok(JoinedExpr { join, of })
}

// Conditions joined from left to right.
pub(crate) fn chain(
    alloc: Global,
    first: TypedPart,
    others: Result<Items<JoinedExpr>, Failure<Fault>>,
) -> Result<Operand, Failure<Fault>>
    ensures { (part : Part) → (rest : List (Join × Part)) → IsPart first part → Tells others (each joined rest) → Tells result (chain part rest) }
{
    let first = first.condition(alloc)?;
    let others = others?;
    Ok(Operand::Condition(Expr::Chain(Boxed::new(alloc, first)?, others)))
}

// A condition that is turned round.
pub(crate) fn not(alloc: Global, of: TypedPart) -> Result<Operand, Failure<Fault>>
    ensures { (part : Part) → IsPart of part → Tells result (result_map (λ inner. Operand.Condition (expr.Not inner)) (condition part)) }
{
    let of = of.condition(alloc)?;
    Ok(Operand::Condition(Expr::Not(Boxed::new(alloc, of)?)))
}

// A number with its sign turned round.
pub(crate) fn minus(alloc: Global, of: TypedPart) -> Result<Operand, Failure<Fault>>
    ensures { (part : Part) → IsPart of part → Tells result (result_map (λ inner. Operand.Number (term.Minus inner)) (whole part)) }
{
    let of = of.of_kind(alloc, ValueKind::Whole)?;
    Ok(Operand::Number(Term::Minus(Boxed::new(alloc, of)?)))
}

// A number behind its sign.
pub(crate) fn combined(
    alloc: Global,
    arith: Arith,
    of: TypedPart,
) -> Result<CombinedTerm, Failure<Fault>>
    ensures { (part : Part) → IsPart of part → Tells result (combined (arith, part)) }
{
    let of = of.of_kind(alloc, ValueKind::Whole)?;
    Ok(CombinedTerm { arith, of })
}

// Numbers combined from left to right.
pub(crate) fn calculation(
    alloc: Global,
    first: TypedPart,
    others: Result<Items<CombinedTerm>, Failure<Fault>>,
) -> Result<Operand, Failure<Fault>>
    ensures { (part : Part) → (rest : List (Arith × Part)) → IsPart first part → Tells others (each combined rest) → Tells result (calculation part rest) }
{
    let first = first.of_kind(alloc, ValueKind::Whole)?;
    let others = others?;
    Ok(Operand::Number(Term::Calc(Boxed::new(alloc, first)?, others)))
}

// Two values of one kind.
pub(crate) fn comparison(
    alloc: Global,
    cmp: Cmp,
    left: TypedPart,
    right: TypedPart,
) -> Result<Operand, Failure<Fault>>
    ensures { (first : Part) → (second : Part) → IsPart left first → IsPart right second → Tells result (comparison cmp first second) }
{
    let (kind, first) = left.compared(alloc, cmp)?;
    let second = right.of_kind(alloc, kind)?;
    Ok(Operand::Condition(Expr::Compare(cmp, first, second)))
}

// A field, and what is sought in it.
pub(crate) fn search(
    alloc: Global,
    schema: &Schema,
    seek: Seek,
    left: TypedPart,
    right: TypedPart,
    tree: &Ast,
) -> Result<Operand, Failure<Fault>>
    ensures { (field : Part) → (value : Part) → IsPart left field → IsPart right value → literal_of tree.now ≡ value.literal → Tells result (search schema.now seek field value) }
{
    let path = left.sought(alloc, seek)?;
    let value = sought_value(alloc, &path, right, tree)?;
    Ok(Operand::Condition(Expr::Seek(leaf(schema, path, seek, value))))
}

// The value that a tree writes, to be sought in a field.
fn sought_value(
    alloc: Global,
    path: &Path,
    of: TypedPart,
    tree: &Ast,
) -> Result<Literal, Failure<Fault>>
    ensures { (part : Part) → IsPart of part → literal_of tree.now ≡ part.literal → Tells result (sought_value path.now part) }
{
    let TypedPart { at, operand } = of;
    operand?;
    match sought_literal(path, tree)? {
        Some(value) => Ok(value),
        None => refused(alloc, FaultKind::TypeMismatch, at),
    }
}

// A part that says whether an end is included.
pub(crate) fn end(alloc: Global, of: TypedPart, tree: &Ast) -> Result<bool, Failure<Fault>>
    ensures { (part : Part) → IsPart of part → literal_of tree.now ≡ part.literal → Tells result (end_part part) }
{
    let TypedPart { at, operand } = of;
    operand?;
    match end_of(tree) {
        Some(included) => Ok(included),
        None => refused(alloc, FaultKind::TypeMismatch, at),
    }
}

/// An end of a range.
#[derive(Drop)]
pub(crate) struct RangeEnd {
    /// The end.
    pub(crate) of: TypedPart,
    /// Whether it is included.
    pub(crate) included: Result<bool, Failure<Fault>>,
}

// An end of this kind, and whether it is included.
fn bound(alloc: Global, of: RangeEnd, kind: ValueKind) -> Result<(Term, bool), Failure<Fault>>
    ensures { (part : Part) → (with : Part) → IsPart of.of part → Tells of.included (end_part with) → Tells result (bound kind part with) }
{
    let RangeEnd { of, included } = of;
    let of = of.of_kind(alloc, kind)?;
    Ok((of, included?))
}

// A value between two ends of its kind.
pub(crate) fn between(
    alloc: Global,
    value: TypedPart,
    low: RangeEnd,
    high: RangeEnd,
) -> Result<Operand, Failure<Fault>>
    ensures { (at : ℕ) → (middle : Part) → (least : Part) → (with_least : Part) → (most : Part) → (with_most : Part)
        → IsPart value middle → IsPart low.of least → Tells low.included (end_part with_least) → IsPart high.of most → Tells high.included (end_part with_most)
        → Tells result (between at (middle ∷ least ∷ with_least ∷ most ∷ with_most ∷ [])) }
{
    let (kind, value) = value.compared(alloc, Cmp::Lt)?;
    let (low, with_low) = bound(alloc, low, kind)?;
    let (high, with_high) = bound(alloc, high, kind)?;
    Ok(Operand::Condition(Expr::Between(value, low, with_low, high, with_high)))
}

// A value among others of its kind.
pub(crate) fn in_values(
    value: Term,
    others: Result<Items<Term>, Failure<Fault>>,
) -> Result<Operand, Failure<Fault>>
    ensures { (rest : Result (List Term) Fault) → Tells others rest → Tells result (result_map (λ all. Operand.Condition (expr.InValues value all)) rest) }
{
    Ok(Operand::Condition(Expr::InValues(value, others?)))
}

// What is found so far, and one more.
pub(crate) fn added<T: Drop>(
    found: Items<T>,
    next: Result<T, Failure<Fault>>,
) -> Result<Items<T>, Failure<Fault>>
    ensures { (one : Result T Fault) → Tells next one → Tells result (result_map (λ item. found ++ item ∷ []) one) }
{
    let mut all = found;
    all.push(next?)?;
    Ok(all)
}
