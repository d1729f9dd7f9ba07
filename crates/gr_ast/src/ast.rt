// The tree of a query or a script as it is written, before its names and kinds are looked at.

use crate::operators::{Arith, FieldOp, Join, Seek};
use gr_base::{Bytes, Cmp};
use sqlite_items::{Boxed, Items};

/// A query or a script as it is written. `at` is the byte place of the first token, grouping brackets left aside.
#[cycle(ast)]
#[derive(Drop)]
pub enum Ast {
    /// Conditions, joined from left to right.
    Chain {
        at: u64,
        first: Boxed<Ast>,
        rest: Items<Joined>,
    },
    /// `!`
    Not {
        at: u64,
        of: Boxed<Ast>,
    },
    /// The unary `-`.
    Minus {
        at: u64,
        of: Boxed<Ast>,
    },
    /// A comparison.
    Compare {
        at: u64,
        cmp: Cmp,
        left: Boxed<Ast>,
        right: Boxed<Ast>,
    },
    /// A search.
    Find {
        at: u64,
        seek: Seek,
        left: Boxed<Ast>,
        right: Boxed<Ast>,
    },
    /// Whole numbers, combined from left to right.
    Calc {
        at: u64,
        first: Boxed<Ast>,
        rest: Items<Combined>,
    },
    /// `between`, with its five arguments.
    Between {
        at: u64,
        args: Items<Ast>,
    },
    /// `in_values`, with its arguments, at least two.
    InValues {
        at: u64,
        args: Items<Ast>,
    },
    /// A path of names, as it is written.
    Path {
        at: u64,
        text: Bytes,
    },
    /// A whole number.
    Number {
        at: u64,
        value: u64,
    },
    /// A text between quotes, with its escapes read.
    Text {
        at: u64,
        bytes: Bytes,
    },
    /// `true` or `false`.
    Truth {
        at: u64,
        value: bool,
    },
    /// Every record: what a query's first `-` takes away from.
    All {
        at: u64,
    },
    /// A word or a phrase of a query, sought in the match columns.
    Word {
        at: u64,
        seek: Seek,
        text: Bytes,
    },
    /// A test of one field in a query.
    FieldTest {
        at: u64,
        path: Bytes,
        test: FieldOp,
        text: Bytes,
    },
}

/// A condition that is joined to those before it.
#[cycle(ast)]
#[derive(Drop)]
pub struct Joined {
    /// How it is joined.
    pub join: Join,
    /// The condition.
    pub of: Ast,
}

/// A number that is combined with those before it.
#[cycle(ast)]
#[derive(Drop)]
pub struct Combined {
    /// What it is combined by.
    pub arith: Arith,
    /// The number.
    pub of: Ast,
}
