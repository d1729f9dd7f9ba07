// What comes next in a list of match columns.

use gr_ast::MatchColumn;

/// What comes next in a list of columns.
#[derive(Drop)]
pub(crate) enum Place {
    /// A column's path.
    Path,
    /// What may follow this column, which has no weight yet.
    Behind(MatchColumn),
    /// This column's weight.
    Weight(MatchColumn),
    /// What may follow this column and its weight.
    Weighted(MatchColumn),
}
