// What the reader keeps of a script while it reads on: parts that are begun and not finished.
ghost use Rattle.std.specs.Prelude.{◌≡◌, ◌∷◌, OnOk};
ghost use Rattle.gr_script.specs.Precedence.{rank};
ghost use Rattle.gr_script.specs.Inside.Machine.{IsCall, IsCalculation, IsChain, argued, combined, level, linked};

use crate::grammar::{Call, ConditionLine, NumberLine, Sign};
use crate::precedence::Precedence;
use gr_ast::{Arith, Ast, Combined, FieldOp, Join, Joined};
use gr_base::NoMemory;
use sqlite_items::{Boxed, Items};

/// A part that is begun, and waits for the operand that is being read.
#[derive(Drop)]
pub(crate) enum Frame {
    /// Conditions in a row, with the sign before the one that is read.
    Joining {
        line: ConditionLine,
        first: Boxed<Ast>,
        links: Items<Joined>,
        join: Join,
    },
    /// A comparison or a search, with its left side.
    Testing {
        test: FieldOp,
        left: Boxed<Ast>,
    },
    /// Numbers in a row, with the sign before the one that is read.
    Combining {
        line: NumberLine,
        first: Boxed<Ast>,
        terms: Items<Combined>,
        arith: Arith,
    },
    /// A sign before its operand.
    Signing {
        sign: Sign,
        at: u64,
    },
    /// An opened bracket.
    Grouping,
    /// An opened call, with its arguments before the one that is read.
    Calling {
        call: Call,
        at: u64,
        args: Items<Ast>,
    },
}

impl Frame {
    ghost use Rattle.gr_script.specs.Inside.Machine.{hold, level};

    /// How tightly it binds what is read in it; brackets do not.
    pub(crate) fn hold(&self) -> Precedence
        ensures { rank result ≡ hold self.now }
    {
        match self {
            Frame::Joining { line, .. } => line.precedence(),
            Frame::Testing { .. } => Precedence::Comparison,
            Frame::Combining { line, .. } => line.precedence(),
            Frame::Signing { .. } => Precedence::Sign,
            Frame::Grouping => Precedence::Bracket,
            Frame::Calling { .. } => Precedence::Bracket,
        }
    }

    /// How many levels it opens.
    pub(crate) fn level(&self) -> u64
        ensures { result ≡ level self.now }
    {
        match self {
            Frame::Joining { .. } => 0,
            Frame::Testing { .. } => 0,
            Frame::Combining { .. } => 0,
            Frame::Signing { .. } => 1,
            Frame::Grouping => 1,
            Frame::Calling { .. } => 1,
        }
    }

    /// One more condition of a chain, with the sign behind it.
    pub(crate) fn link(&mut self, join: Join, tree: Ast) -> Result<(), NoMemory>
        requires { IsChain self.old }
        ensures made { OnOk result (self.new ≡ linked join tree self.old) }
        ensures level { level self.new ≡ level self.old }
    {
        match self {
            Frame::Joining {
                links,
                join: before,
                ..
            } => {
                links.push(Joined {
                    join: *before,
                    of: tree,
                })?;
                *before = join;
                Ok(())
            }
            _ => unreachable!(),
        }
    }

    /// One more number of a calculation, with the sign behind it.
    pub(crate) fn combine(&mut self, arith: Arith, tree: Ast) -> Result<(), NoMemory>
        requires { IsCalculation self.old }
        ensures made { OnOk result (self.new ≡ combined arith tree self.old) }
        ensures level { level self.new ≡ level self.old }
    {
        match self {
            Frame::Combining {
                terms,
                arith: before,
                ..
            } => {
                terms.push(Combined {
                    arith: *before,
                    of: tree,
                })?;
                *before = arith;
                Ok(())
            }
            _ => unreachable!(),
        }
    }

    /// One more argument of a call.
    pub(crate) fn argue(&mut self, tree: Ast) -> Result<(), NoMemory>
        requires { IsCall self.old }
        ensures made { OnOk result (self.new ≡ argued tree self.old) }
        ensures level { level self.new ≡ level self.old }
    {
        match self {
            Frame::Calling { args, .. } => {
                args.push(tree)?;
                Ok(())
            }
            _ => unreachable!(),
        }
    }
}
