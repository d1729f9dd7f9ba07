// What stands between the parts of a query or a script.

use gr_base::Cmp;

/// How a condition is joined to those before it.
#[derive(Clone, Copy, Debug, PartialEq, Eq)]
pub enum Join {
    /// Both hold: `&&`, or a space in a query.
    And,
    /// At least one holds: `||`, or `OR` in a query.
    Or,
    /// The left one holds, and the right one does not: `&!`, or `-` in a query.
    Without,
}

/// What two whole numbers are combined by.
#[derive(Clone, Copy, Debug, PartialEq, Eq)]
pub enum Arith {
    /// `+`
    Add,
    /// `-`
    Sub,
    /// `*`
    Mul,
    /// `/`, which cuts towards zero.
    Div,
    /// `%`, which has the sign of the left side.
    Rem,
}

/// What a search asks for.
#[derive(Clone, Copy, Debug, PartialEq, Eq)]
pub enum Seek {
    /// `@`: the text stands in the field, or is one of its elements.
    Match,
    /// `@^`: the field, or a word of it, begins with the text.
    Prefix,
    /// `@$`: the field ends with the text.
    Suffix,
}

/// What a field of a query is tested by.
#[derive(Clone, Copy, Debug, PartialEq, Eq)]
pub enum FieldOp {
    /// A comparison.
    Compare(Cmp),
    /// A search.
    Find(Seek),
}
