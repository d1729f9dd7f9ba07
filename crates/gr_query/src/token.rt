// What a query is cut into.

use gr_ast::{FieldOp, Seek};
use gr_base::Bytes;

/// A token of a query.
#[derive(Drop)]
pub(crate) enum Token {
    /// `(`
    Open,
    /// `)`
    Close,
    /// `+`
    Plus,
    /// `-`
    Minus,
    /// The word `OR`.
    Or,
    /// A phrase or a plain run, with its escapes read, and how it is sought.
    Word(Seek, Bytes),
    /// A path, a test, and the text that it is tested by.
    Field(Bytes, FieldOp, Bytes),
}
