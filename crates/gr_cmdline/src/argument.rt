// Arguments as they stand in a line.
use crate::text::Text;

/// One argument.
#[derive(Drop)]
pub(crate) enum Argument<'a> {
    /// A value behind a name.
    Named {
        /// The name, without its hyphens.
        name: Text<'a>,
        /// The value.
        value: Text<'a>,
    },
    /// A value that says by its place what it is.
    Placed(Text<'a>),
}
