// What the reader keeps of a query while it reads on.

use gr_ast::{Ast, Join, Joined};
use sqlite_items::Items;

/// Units, each joined to those before it.
#[derive(Drop)]
pub(crate) struct Units {
    /// The place of the first token that is no opening bracket.
    pub(crate) at: u64,
    /// The first tree.
    pub(crate) first: Ast,
    /// The further ones.
    pub(crate) links: Items<Joined>,
}

/// What stands before a unit, in its bracket.
#[derive(Drop)]
pub(crate) enum Before {
    /// The unit is the first, without a sign.
    Nothing,
    /// The unit is the first, behind a `+` at this place.
    Plus(u64),
    /// The unit is joined so to these.
    Joins(Units, Join),
}

/// What comes next, in the last bracket.
#[derive(Clone, Copy)]
pub(crate) enum Next {
    /// A sign or a unit, with which a query begins.
    Begin,
    /// The first unit, behind a `+` at this place.
    Plus(u64),
    /// A unit that is joined so to those before it.
    Joins(Join),
    /// What may follow the units.
    Have,
}
