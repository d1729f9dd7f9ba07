// What a script is cut into.

use gr_base::Bytes;

/// A mark of the grammar.
#[derive(Clone, Copy, Debug, PartialEq, Eq)]
pub(crate) enum Symbol {
    /// `(`
    Open,
    /// `)`
    Close,
    /// `,`
    Comma,
    /// `||`
    Or,
    /// `&&`
    And,
    /// `&!`
    Without,
    /// `==`
    Eq,
    /// `!=`
    Ne,
    /// `<`
    Lt,
    /// `<=`
    Le,
    /// `>`
    Gt,
    /// `>=`
    Ge,
    /// `@`
    Match,
    /// `@^`
    Prefix,
    /// `@$`
    Suffix,
    /// `+`
    Plus,
    /// `-`
    Minus,
    /// `*`
    Star,
    /// `/`
    Slash,
    /// `%`
    Percent,
    /// `!`
    Not,
}

/// A token of a script.
#[derive(Drop)]
pub(crate) enum Token {
    /// A mark of the grammar.
    Symbol(Symbol),
    /// A whole number, or `None` where it is above 18,446,744,073,709,551,615.
    Digits(Option<u64>),
    /// A text between quotes, with its escapes read.
    Text(Bytes),
    /// Names joined by dots.
    Path(Bytes),
}
