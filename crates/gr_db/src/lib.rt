// The journal's entries, and what each does to a database of plain lists.
#![tactic(auto)]

mod entry;
mod index_wants;
mod journal;
mod keeping;
mod references;
mod shapes;
mod shared_expr;
mod sorted;
#[cfg(test)]
mod tests;
mod tokens;
mod want;

pub use entry::{Change, Entry, Settings, Which};
pub use index_wants::new_index_wants;
pub use journal::Journal;
pub use keeping::{counts, id_if, id_which, kept, own_id};
pub use references::{column_target, record_wants};
pub use shapes::shape_of;
pub use shared_expr::SharedExpr;
pub use tokens::token_wants;
pub use want::{Added, Want};
