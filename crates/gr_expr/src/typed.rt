// The typed tree of a condition: each name is a path, and each operator takes operands of its kinds.
ghost use Rattle.std.specs.Prelude.{◌≡◌, IfOk};

use gr_ast::{Arith, Join, Seek};
use gr_base::{Bytes, Cmp, NoMemory};
use gr_values::Path;
use sqlite_items::{Boxed, Items};
use std::alloc::Global;

/// What a search compares.
#[derive(Clone, Copy, Debug, PartialEq, Eq)]
pub enum By {
    /// The characters of a text, wherever they stand one after the other.
    Chars,
    /// The words of a text.
    Words,
    /// The elements of a list, or the record that is referred to.
    Element,
}

/// A value that is written in a condition.
#[derive(Drop)]
pub enum Literal {
    /// A whole number, from -2^64 + 1 to 2^64 - 1.
    Number(i128),
    /// A text, which is UTF-8.
    Text(Bytes),
    /// `true` or `false`.
    Truth(bool),
}

impl Literal {
    /// The same value once more. It fails only where the count of a long text's owners is full.
    pub fn try_clone(&self) -> Result<Literal, NoMemory>
        ensures { IfOk result (λ copy. copy ≡ self.now) }
    {
        match self {
            Literal::Number(number) => Ok(Literal::Number(*number)),
            Literal::Text(text) => Ok(Literal::Text(text.try_clone()?)),
            Literal::Truth(truth) => Ok(Literal::Truth(*truth)),
        }
    }
}

/// A search in one field.
#[derive(Drop)]
pub struct SeekLeaf {
    /// The field.
    pub path: Path,
    /// What is asked for.
    pub seek: Seek,
    /// What is compared.
    pub by: By,
    /// What is sought.
    pub value: Literal,
}

impl SeekLeaf {
    /// The same search once more.
    pub fn try_clone(&self, alloc: Global) -> Result<SeekLeaf, NoMemory>
        ensures { IfOk result (λ copy. copy ≡ self.now) }
    {
        Ok(SeekLeaf {
            path: self.path.try_clone(alloc)?,
            seek: self.seek,
            by: self.by,
            value: self.value.try_clone()?,
        })
    }
}

/// A search in one field, whose score is multiplied.
#[derive(Drop)]
pub struct WeightedLeaf {
    /// By what the score is multiplied, 1 to 1,000.
    pub weight: u32,
    /// The search.
    pub leaf: SeekLeaf,
}

/// A condition, which has a score at each record.
#[cycle(typed)]
#[derive(Drop)]
pub enum Expr {
    /// Every record.
    All,
    /// `true` or `false`.
    Truth(bool),
    /// A field of `true` and `false`.
    Flag(Path),
    /// Conditions, joined from left to right.
    Chain(Boxed<Expr>, Items<JoinedExpr>),
    /// `!`
    Not(Boxed<Expr>),
    /// A comparison of two values.
    Compare(Cmp, Term, Term),
    /// A value, the low end and whether it is included, the high end and whether it is included.
    Between(Term, Term, bool, Term, bool),
    /// Whether the first value is one of the others.
    InValues(Term, Items<Term>),
    /// A search in one field.
    Seek(SeekLeaf),
    /// The sum of searches, each multiplied by its weight.
    Weighted(Items<WeightedLeaf>),
}

/// A condition that is joined to those before it.
#[cycle(typed)]
#[derive(Drop)]
pub struct JoinedExpr {
    /// How it is joined.
    pub join: Join,
    /// The condition.
    pub of: Expr,
}

/// A value that is read at a record.
#[cycle(typed)]
#[derive(Drop)]
pub enum Term {
    /// One that is written.
    Literal(Literal),
    /// A field.
    Cell(Path),
    /// Whether a condition holds.
    Truth(Boxed<Expr>),
    /// Whole numbers, combined from left to right.
    Calc(Boxed<Term>, Items<CombinedTerm>),
    /// The unary `-`.
    Minus(Boxed<Term>),
}

/// A number that is combined with those before it.
#[cycle(typed)]
#[derive(Drop)]
pub struct CombinedTerm {
    /// What it is combined by.
    pub arith: Arith,
    /// The number.
    pub of: Term,
}
