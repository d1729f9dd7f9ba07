// The operand that was read last and the parts round it that are begun, and what each token makes of them.
ghost use Rattle.std.specs.Prelude.{◌≡◌, [], ◌∷◌, ◌++◌, suc, IfOk, OnErr, OnOk, Err};
ghost use Rattle.gr_base.specs.declared.limits.TheConstants.{MOST_LEVELS as most_levels};
ghost use Rattle.gr_text.specs.Lexing.{placed};
ghost use Rattle.gr_text.specs.Inside.Reading.{Finishes};
ghost use Rattle.gr_script.specs.Inside.Machine.{begun, close_on, combine_on, follows, is_calculation, is_chain, is_test, join_on, may_separate, phase_of, pull, reduced, separate_on, step, takes_more, test_on, whole_of};
ghost use Rattle.gr_script.specs.Inside.Parts.{Comes, frames_of, held_by};
ghost use Rattle.gr_script.specs.Precedence.{rank};
ghost use Rattle.gr_script.specs.Trees.{takes};

use crate::frame::Frame;
use crate::grammar::{After, Call, ConditionLine, NumberLine, Start};
use crate::precedence::Precedence;
use crate::stack::Stack;
use crate::token::Token;
use crate::trees::{called, close_part, take_tree};
use crate::words::{after_by, opens, start_of};
use gr_ast::{Arith, Ast, BETWEEN_ARGUMENTS, FieldOp, Join, LEAST_IN_VALUES, room_for_one};
use gr_base::NoMemory;
use gr_text::{Lexeme, Stop};
use sqlite_items::{Boxed, Items};
use std::alloc::Global;

/// What comes next.
#[derive(Clone, Copy)]
pub(crate) enum Next {
    /// An operand.
    Want,
    /// The bracket that opens a call's arguments.
    Opening,
    /// What may follow the operand that was read.
    Have,
}

/// The operand that was read last, where one was, and the parts round it that are begun.
#[derive(Drop)]
pub(crate) struct Parts {
    alloc: Global,
    pub(crate) tree: Ast,
    pub(crate) stack: Stack,
}

impl Parts {
    /// Nothing is read.
    pub(crate) fn new(alloc: Global) -> Parts
        ensures frames { result.stack.frames.items ≡ [] }
        ensures left { result.stack.left ≡ most_levels }
    {
        Parts {
            alloc,
            tree: Ast::All { at: 0 },
            stack: Stack::new(alloc),
        }
    }

    /// Takes the next token. What comes then.
    pub(crate) fn advance(&mut self, next: Next, lexeme: Lexeme<Token>) -> Result<Next, Stop>
        ensures { Comes result self.new (step (phase_of next self.old.tree) (frames_of self.old) self.old.stack.left (placed lexeme)) }
    {
        match next {
            Next::Want => {
                let at = lexeme.at;
                self.begin(start_of(lexeme), at)
            }
            Next::Opening if opens(&lexeme.token) => Ok(Next::Want),
            Next::Opening => Err(Stop::Wrong),
            Next::Have => self.follow(after_by(&lexeme.token)),
        }
    }

    /// What an operand begins with, at this place.
    fn begin(&mut self, start: Start, at: u64) -> Result<Next, Stop>
        ensures { Comes result self.new (begun start at (frames_of self.old) self.old.stack.left) }
    {
        match start {
            Start::Leaf(leaf) => {
                self.tree = leaf;
                Ok(Next::Have)
            }
            Start::Signed(sign) => {
                self.stack.open(Frame::Signing { sign, at })?;
                Ok(Next::Want)
            }
            Start::Grouped => {
                self.stack.open(Frame::Grouping)?;
                Ok(Next::Want)
            }
            Start::Called(call) => {
                let args = Items::new(self.alloc);
                self.stack.open(Frame::Calling { call, at, args })?;
                Ok(Next::Opening)
            }
            Start::Nothing => Err(Stop::Wrong),
        }
    }

    /// What follows an operand.
    fn follow(&mut self, after: After) -> Result<Next, Stop>
        ensures { Comes result self.new (follows after (reduced (pull after) self.old.tree (frames_of self.old) self.old.stack.left)) }
    {
        self.reduce(after.pull())?;
        match after {
            After::Closes => self.close(),
            After::Separates => self.separate(),
            After::Joins(line, join) => self.join(line, join),
            After::Tests(test) => self.begin_test(test),
            After::Combines(line, arith) => self.combine(line, arith),
            After::Nothing => Err(Stop::Wrong),
        }
    }

    /// Closes the parts that bind the operand more tightly than what follows it.
    fn reduce(&mut self, pulled: Precedence) -> Result<(), NoMemory>
        ensures { OnOk result (reduced (rank pulled) self.old.tree (frames_of self.old) self.old.stack.left ≡ held_by self.new) }
    {
        'parts: while let Some(frame) = self.stack.pop_over(pulled) {
            close_part(self.alloc, frame, &mut self.tree)?;
        }
        Ok(())
    }

    /// A join behind this operand.
    fn join(&mut self, line: ConditionLine, join: Join) -> Result<Next, Stop>
        ensures { Comes result self.new (join_on line join self.old.tree (frames_of self.old) self.old.stack.left) }
    {
        if self.is_chain(line) {
            self.stack.link(join, take_tree(&mut self.tree))?;
            return Ok(Next::Want);
        }
        let first = Boxed::new(self.alloc, take_tree(&mut self.tree))?;
        let links = room_for_one(self.alloc)?;
        self.stack.begin(Frame::Joining {
            line,
            first,
            links,
            join,
        })?;
        Ok(Next::Want)
    }

    /// Whether the last begun part is a chain of conditions of this line.
    fn is_chain(&self, line: ConditionLine) -> bool
        ensures { result ≡ is_chain line (frames_of self.now) }
    {
        match self.stack.last() {
            Some(Frame::Joining { line: over, .. }) => *over == line,
            _ => false,
        }
    }

    /// A comparison or a search behind this operand.
    fn begin_test(&mut self, test: FieldOp) -> Result<Next, Stop>
        ensures { Comes result self.new (test_on test self.old.tree (frames_of self.old) self.old.stack.left) }
    {
        if self.is_test() {
            return Err(Stop::Wrong);
        }
        let left = Boxed::new(self.alloc, take_tree(&mut self.tree))?;
        self.stack.begin(Frame::Testing { test, left })?;
        Ok(Next::Want)
    }

    /// Whether the last begun part is a comparison or a search.
    fn is_test(&self) -> bool
        ensures { result ≡ is_test (frames_of self.now) }
    {
        matches!(self.stack.last(), Some(Frame::Testing { .. }))
    }

    /// A sign of numbers behind this operand.
    fn combine(&mut self, line: NumberLine, arith: Arith) -> Result<Next, Stop>
        ensures { Comes result self.new (combine_on line arith self.old.tree (frames_of self.old) self.old.stack.left) }
    {
        if self.is_calculation(line) {
            self.stack.combine(arith, take_tree(&mut self.tree))?;
            return Ok(Next::Want);
        }
        let first = Boxed::new(self.alloc, take_tree(&mut self.tree))?;
        let terms = room_for_one(self.alloc)?;
        self.stack.begin(Frame::Combining {
            line,
            first,
            terms,
            arith,
        })?;
        Ok(Next::Want)
    }

    /// Whether the last begun part is a calculation of this line.
    fn is_calculation(&self, line: NumberLine) -> bool
        ensures { result ≡ is_calculation line (frames_of self.now) }
    {
        match self.stack.last() {
            Some(Frame::Combining { line: over, .. }) => *over == line,
            _ => false,
        }
    }

    /// A closing bracket behind this operand.
    fn close(&mut self) -> Result<Next, Stop>
        ensures { Comes result self.new (close_on self.old.tree (frames_of self.old) self.old.stack.left) }
    {
        match self.stack.pop() {
            Some(Frame::Grouping) => Ok(Next::Have),
            Some(Frame::Calling { call, at, args }) => {
                if !takes(call, args.len()) {
                    return Err(Stop::Wrong);
                }
                let args = with_argument(args, take_tree(&mut self.tree))?;
                self.tree = called(call, at, args);
                Ok(Next::Have)
            }
            _frame => Err(Stop::Wrong),
        }
    }

    /// A comma behind this operand.
    fn separate(&mut self) -> Result<Next, Stop>
        ensures { Comes result self.new (separate_on self.old.tree (frames_of self.old) self.old.stack.left) }
    {
        if !self.may_separate() {
            return Err(Stop::Wrong);
        }
        self.stack.argue(take_tree(&mut self.tree))?;
        Ok(Next::Want)
    }

    /// Whether the last begun part is a call that takes more than one argument more.
    fn may_separate(&self) -> bool
        ensures { result ≡ may_separate (frames_of self.now) }
    {
        match self.stack.last() {
            Some(Frame::Calling { call, args, .. }) => takes_more(*call, args.len()),
            _ => false,
        }
    }

    /// The tree of a script that ends behind this operand; it is wrong where a part is open still.
    pub(crate) fn finish(self) -> Result<Ast, Stop>
        ensures { Finishes result (whole_of (reduced (rank Precedence.Bracket) self.tree (frames_of self) self.stack.left)) }
    {
        let mut parts = self;
        parts.reduce(Precedence::Bracket)?;
        if parts.stack.frames.is_empty() {
            Ok(parts.tree)
        } else {
            Err(Stop::Wrong)
        }
    }
}

/// A call's arguments, with one more behind them.
fn with_argument(args: Items<Ast>, tree: Ast) -> Result<Items<Ast>, NoMemory>
    ensures { IfOk result (λ made. made ≡ args ++ tree ∷ []) }
{
    let mut args = args;
    args.push(tree)?;
    Ok(args)
}

/// Whether a call takes one argument more than so many.
fn takes(call: Call, before: usize) -> bool
    ensures { result ≡ takes call (suc before) }
{
    match call {
        Call::Between => before == BETWEEN_ARGUMENTS - 1,
        Call::InValues => before >= LEAST_IN_VALUES - 1,
    }
}

/// Whether a call takes more than one argument more than so many.
fn takes_more(call: Call, before: usize) -> bool
    ensures { result ≡ takes_more call (suc before) }
{
    match call {
        Call::Between => before < BETWEEN_ARGUMENTS - 1,
        Call::InValues => true,
    }
}
