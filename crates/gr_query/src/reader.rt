// How a query is read from the left in one pass: a step for each token.
ghost use Rattle.std.specs.Prelude.{◌≡◌, ℕ};
ghost use Rattle.gr_query.specs.Inside.Machine.{begin, finish_of, joined, step_of, with_first, with_unit};
ghost use Rattle.gr_query.specs.Text.{has_no_value};
ghost use Rattle.gr_query.specs.declared.token.Token.TheVariants.{Close, Minus, Open, Plus};
ghost use Rattle.gr_text.specs.Lexing.{placed};
ghost use Rattle.gr_text.specs.Inside.Reading.{Answers, goes};
ghost use Rattle.gr_base.specs.declared.limits.TheConstants.{MOST_LEVELS as most_levels};

use crate::frame::{Before, Next, Units};
use crate::token::Token;
use crate::units::{alone, placed, push, tree_of, unread};
use gr_ast::{Ast, Join};
use gr_base::MOST_LEVELS;
use gr_text::{Lexeme, Reader, Stop};
use std::alloc::Global;
use std::marker::Model;
use std::mem;

/// Reads a query. At most `MOST_LEVELS` brackets are open.
#[derive(Drop)]
pub(crate) struct QueryReader {
    alloc: Global,
    /// What comes next.
    next: Next,
    /// What is read of the last bracket, where a unit of it is.
    units: Units,
    /// What stands before each open bracket, the last one on top.
    frames: Vec<Before>,
    /// How many more brackets may be opened.
    left: u64,
}

impl Model for QueryReader {
    ghost use Rattle.std.specs.Prelude.{◌≡◌, ◌+◌, length, reverse};
    ghost use Rattle.gr_base.specs.declared.limits.TheConstants.{MOST_LEVELS as most_levels};
    ghost use Rattle.gr_query.specs.Inside.Machine.{State, phase_of, state};
    ghost use Rattle.gr_ast.specs.contracts.ast.Ast as ast;
    ghost use Rattle.std.specs.Coded.{codes};

    ghost Value = { State };

    ghost coded = { Prim.hlevel (codes, ast.the_row.coded) };

    ghost view = { λ reader. state (phase_of reader.next reader.units) (reverse reader.frames.items) reader.left };

    ghost invariant = { λ reader. reader.left + length reader.frames.items ≡ most_levels };
}

impl QueryReader {
    /// Nothing is read.
    pub(crate) fn new(alloc: Global) -> QueryReader
        ensures { result ≡ begin most_levels }
    {
        QueryReader {
            alloc,
            next: Next::Begin,
            units: unread(alloc),
            frames: Vec::new(alloc),
            left: MOST_LEVELS,
        }
    }

    /// A unit that is no bracket.
    // Inlined, so that the tree is written where it stays.
    #[inline(always)]
    fn unit(&mut self, at: u64, tree: Ast) -> Result<(), Stop>
        ensures { Answers result self.new (goes (with_unit self.old at tree)) }
    {
        let join = match self.next {
            Next::Begin => {
                self.first(at, tree);
                return Ok(());
            }
            Next::Plus(sign) => {
                self.first(sign, tree);
                return Ok(());
            }
            Next::Joins(join) => join,
            Next::Have => Join::And,
        };
        push(self.alloc, &mut self.units, join, tree)?;
        self.next = Next::Have;
        Ok(())
    }

    /// The first unit of a bracket.
    fn first(&mut self, at: u64, tree: Ast)
        ensures { self.new ≡ with_first self.old at tree }
    {
        self.units = alone(self.alloc, at, tree);
        self.next = Next::Have;
    }

    /// An opening bracket.
    fn open(&mut self) -> Result<(), Stop>
        ensures { (at : ℕ) → Answers result self.new (step_of self.old (record { at = at; token = Open })) }
    {
        if self.left == 0 {
            return Err(Stop::Deep);
        }
        let units = mem::replace(&mut self.units, unread(self.alloc));
        let before = match self.next {
            Next::Begin => Before::Nothing,
            Next::Plus(sign) => Before::Plus(sign),
            Next::Joins(join) => Before::Joins(units, join),
            Next::Have => Before::Joins(units, Join::And),
        };
        self.frames.push(before)?;
        self.left -= 1;
        self.next = Next::Begin;
        Ok(())
    }

    /// A closing bracket.
    fn close(&mut self) -> Result<(), Stop>
        ensures { (at : ℕ) → Answers result self.new (step_of self.old (record { at = at; token = Close })) }
    {
        let Next::Have = self.next else {
            return Err(Stop::Wrong);
        };
        let Some(before) = self.frames.pop() else {
            return Err(Stop::Wrong);
        };
        self.left += 1;
        let units = mem::replace(&mut self.units, unread(self.alloc));
        let at = units.at;
        let tree = tree_of(self.alloc, units)?;
        self.units = placed(self.alloc, before, at, tree)?;
        Ok(())
    }

    /// A `+`.
    fn plus(&mut self, at: u64) -> Result<(), Stop>
        ensures { Answers result self.new (step_of self.old (record { at = at; token = Plus })) }
    {
        if let Next::Begin = self.next {
            self.next = Next::Plus(at);
            return Ok(());
        }
        self.join(Join::And)
    }

    /// A `-`.
    fn minus(&mut self, at: u64) -> Result<(), Stop>
        ensures { Answers result self.new (step_of self.old (record { at = at; token = Minus })) }
    {
        if let Next::Begin = self.next {
            self.units = alone(self.alloc, at, Ast::All { at });
            self.next = Next::Joins(Join::Without);
            return Ok(());
        }
        self.join(Join::Without)
    }

    /// What joins the next unit to those before it.
    fn join(&mut self, join: Join) -> Result<(), Stop>
        ensures { Answers result self.new (joined self.old join) }
    {
        match self.next {
            Next::Have => {
                self.next = Next::Joins(join);
                Ok(())
            }
            _ => Err(Stop::Wrong),
        }
    }
}

impl Reader for QueryReader {
    type Token = Token;

    type Tree = Ast;

    ghost steps = { step_of };

    ghost ends = { finish_of };

    ghost has_no_value = { has_no_value };

    fn step(&mut self, lexeme: Lexeme<Token>) -> Result<(), Stop>
        ensures { Answers result self.new (step_of self.old (placed lexeme)) }
    {
        let Lexeme { at, token } = lexeme;
        match token {
            Token::Word(seek, text) => self.unit(at, Ast::Word { at, seek, text }),
            Token::Field(path, test, text) => self.unit(
                at,
                Ast::FieldTest {
                    at,
                    path,
                    test,
                    text,
                },
            ),
            Token::Or => self.join(Join::Or),
            Token::Plus => self.plus(at),
            Token::Minus => self.minus(at),
            Token::Open => self.open(),
            Token::Close => self.close(),
        }
    }

    fn finish(self) -> Result<Ast, Stop> {
        let QueryReader {
            alloc,
            next,
            units,
            frames,
            ..
        } = self;
        match next {
            Next::Have if frames.is_empty() => Ok(tree_of(alloc, units)?),
            _ => Err(Stop::Wrong),
        }
    }

    fn lacks_value(_token: &Token) -> bool {
        false
    }
}
