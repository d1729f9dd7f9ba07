// What the grammar asks of a token.
ghost use Rattle.std.specs.Prelude.{◌≡◌};
ghost use Rattle.gr_script.specs.Precedence.{rank};

use crate::precedence::Precedence;
use gr_ast::{Arith, Ast, FieldOp, Join};

/// The lines of the grammar that join conditions.
#[derive(Clone, Copy, Debug, PartialEq, Eq)]
pub(crate) enum ConditionLine {
    /// Joined by `||`.
    Any,
    /// Joined by `&&` and `&!`.
    All,
}

impl ConditionLine {
    ghost use Rattle.gr_script.specs.Inside.Machine.{tightness};

    /// How tightly it binds.
    pub(crate) fn precedence(self) -> Precedence
        ensures { rank result ≡ tightness self }
    {
        match self {
            ConditionLine::Any => Precedence::Any,
            ConditionLine::All => Precedence::All,
        }
    }
}

/// The lines of the grammar that combine numbers.
#[derive(Clone, Copy, Debug, PartialEq, Eq)]
pub(crate) enum NumberLine {
    /// Combined by `+` and `-`.
    Sum,
    /// Combined by `*`, `/` and `%`.
    Product,
}

impl NumberLine {
    ghost use Rattle.gr_script.specs.Inside.Machine.{number_tightness};

    /// How tightly it binds.
    pub(crate) fn precedence(self) -> Precedence
        ensures { rank result ≡ number_tightness self }
    {
        match self {
            NumberLine::Sum => Precedence::Sum,
            NumberLine::Product => Precedence::Product,
        }
    }
}

/// What stands before an operand.
#[derive(Clone, Copy, Debug, PartialEq, Eq)]
pub(crate) enum Sign {
    /// `!`
    Not,
    /// `-`
    Minus,
}

/// What is called by its name.
#[derive(Clone, Copy, Debug, PartialEq, Eq)]
pub(crate) enum Call {
    /// `between`, of five arguments.
    Between,
    /// `in_values`, of two arguments at least.
    InValues,
}

/// What a word means that is no path by itself.
#[derive(Clone, Copy)]
pub(crate) enum Reserved {
    /// `true` or `false`.
    Truth(bool),
    /// A call's name.
    Called(Call),
}

/// What an operand may begin with.
#[derive(Drop)]
pub(crate) enum Start {
    /// The token is an operand by itself.
    Leaf(Ast),
    /// A sign, with its operand after it.
    Signed(Sign),
    /// An opening bracket.
    Grouped,
    /// A call's name.
    Called(Call),
    /// No operand begins so.
    Nothing,
}

/// What may follow an operand.
#[derive(Clone, Copy)]
pub(crate) enum After {
    /// A closing bracket.
    Closes,
    /// A comma.
    Separates,
    /// A join of conditions.
    Joins(ConditionLine, Join),
    /// A comparison or a search.
    Tests(FieldOp),
    /// A combination of numbers.
    Combines(NumberLine, Arith),
    /// Nothing follows an operand so.
    Nothing,
}

impl After {
    ghost use Rattle.gr_script.specs.Inside.Machine.{pull};

    /// How tightly it binds the operand before it.
    pub(crate) fn pull(self) -> Precedence
        ensures { rank result ≡ pull self }
    {
        match self {
            After::Closes => Precedence::Bracket,
            After::Separates => Precedence::Bracket,
            After::Joins(line, _) => line.precedence(),
            After::Tests(_) => Precedence::Comparison,
            After::Combines(line, _) => line.precedence(),
            After::Nothing => Precedence::Bracket,
        }
    }
}
