// What a part of a condition is, before its operator takes it.
ghost use Rattle.std.specs.Prelude.{◌≡◌, IfOk};
ghost use Rattle.gr_bind.specs.declared.operand.Operand.{Operand};
ghost use Rattle.gr_bind.specs.Kinds.{condition_of, is_same_kind, kind_of, literal_kind, path_in, term_of};

use crate::kinds::path_kind;
use gr_base::NoMemory;
use gr_expr::{Expr, Literal, Term};
use gr_values::Path;
use sqlite_items::Boxed;
use std::alloc::Global;

/// A kind of values.
#[derive(Clone, Copy, Debug, PartialEq, Eq)]
pub enum ValueKind {
    /// A whole number.
    Whole,
    /// A text.
    Text,
    /// `true` or `false`.
    Truth,
    /// Whole numbers.
    WholeVec,
    /// Texts.
    TextVec,
}

impl ValueKind {
    // Whether two kinds are one.
    pub(crate) fn is(self, other: ValueKind) -> bool
        ensures { result ≡ is_same_kind self other }
    {
        match self {
            ValueKind::Whole => matches!(other, ValueKind::Whole),
            ValueKind::Text => matches!(other, ValueKind::Text),
            ValueKind::Truth => matches!(other, ValueKind::Truth),
            ValueKind::WholeVec => matches!(other, ValueKind::WholeVec),
            ValueKind::TextVec => matches!(other, ValueKind::TextVec),
        }
    }
}

/// A part of a condition whose names were looked up.
#[derive(Drop)]
pub enum Operand {
    /// A field.
    Path(Path),
    /// A value that is written.
    Literal(Literal),
    /// A whole number that is calculated.
    Number(Term),
    /// A condition.
    Condition(Expr),
}

impl Operand {
    // Its kind.
    pub(crate) fn kind(&self) -> ValueKind
        ensures { result ≡ kind_of self.now }
    {
        match self {
            Operand::Path(path) => path_kind(path),
            Operand::Literal(literal) => literal_kind(literal),
            Operand::Number(_) => ValueKind::Whole,
            Operand::Condition(_) => ValueKind::Truth,
        }
    }

    // It as a term.
    pub(crate) fn into_term(self, alloc: Global) -> Result<Term, NoMemory>
        ensures { IfOk result (λ term. term ≡ term_of self) }
    {
        match self {
            Operand::Path(path) => Ok(Term::Cell(path)),
            Operand::Literal(literal) => Ok(Term::Literal(literal)),
            Operand::Number(number) => Ok(number),
            Operand::Condition(condition) => Ok(Term::Truth(Boxed::new(alloc, condition)?)),
        }
    }

    // It as a condition, where its kind is `Truth`.
    pub(crate) fn into_condition(self) -> Option<Expr>
        ensures { result ≡ condition_of self }
    {
        match self {
            Operand::Path(path) => flag(path),
            Operand::Literal(Literal::Truth(truth)) => Some(Expr::Truth(truth)),
            Operand::Literal(_) | Operand::Number(_) => None,
            Operand::Condition(condition) => Some(condition),
        }
    }

    // It as a path.
    pub(crate) fn into_path(self) -> Option<Path>
        ensures { result ≡ path_in self }
    {
        match self {
            Operand::Path(path) => Some(path),
            Operand::Literal(_) | Operand::Number(_) | Operand::Condition(_) => None,
        }
    }
}

// The kind of a value that is written.
fn literal_kind(literal: &Literal) -> ValueKind
    ensures { result ≡ literal_kind literal.now }
{
    match literal {
        Literal::Number(_) => ValueKind::Whole,
        Literal::Text(_) => ValueKind::Text,
        Literal::Truth(_) => ValueKind::Truth,
    }
}

// A field of `true` and `false` as a condition.
fn flag(path: Path) -> Option<Expr>
    ensures { result ≡ condition_of (Operand.Path path) }
{
    if path_kind(&path).is(ValueKind::Truth) {
        Some(Expr::Flag(path))
    } else {
        None
    }
}
