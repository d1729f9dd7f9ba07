// Reads a script token by token.
ghost use Rattle.std.specs.Prelude.{◌≡◌};
ghost use Rattle.gr_text.specs.Lexing.{placed};
ghost use Rattle.gr_text.specs.Inside.Reading.{Answers};
ghost use Rattle.gr_script.specs.Inside.Machine.{step_of};

use crate::parts::{Next, Parts};
use crate::token::Token;
use crate::words::is_large;
use gr_ast::Ast;
use gr_text::{Lexeme, Reader, Stop};
use std::alloc::Global;
use std::marker::Model;

/// Reads a script. Its tree is the operand that was read last, where one was.
#[derive(Drop)]
pub(crate) struct ScriptReader {
    next: Next,
    parts: Parts,
}

impl Model for ScriptReader {
    ghost use Rattle.std.specs.Coded.{codes};
    ghost use Rattle.gr_ast.specs.contracts.ast.Ast as ast;
    ghost use Rattle.gr_script.specs.Inside.Machine.{State, phase_of, state};
    ghost use Rattle.gr_script.specs.Inside.Parts.{frames_of};

    ghost Value = { State };

    ghost coded = { Prim.hlevel (codes, ast.the_row.coded) };

    ghost view = { λ reader. state (phase_of reader.next reader.parts.tree) (frames_of reader.parts) reader.parts.stack.left };
}

impl ScriptReader {
    ghost use Rattle.gr_base.specs.declared.limits.TheConstants.{MOST_LEVELS as most_levels};
    ghost use Rattle.gr_script.specs.Inside.Machine.{begin};

    /// Nothing is read.
    pub(crate) fn new(alloc: Global) -> ScriptReader
        ensures { result ≡ begin most_levels }
    {
        ScriptReader {
            next: Next::Want,
            parts: Parts::new(alloc),
        }
    }
}

impl Reader for ScriptReader {
    ghost use Rattle.gr_script.specs.Inside.Machine.{finished_of, step_of};
    ghost use Rattle.gr_script.specs.Words.{is_large};

    type Token = Token;

    type Tree = Ast;

    ghost steps = { step_of };

    ghost ends = { finished_of };

    ghost has_no_value = { is_large };

    fn step(&mut self, lexeme: Lexeme<Token>) -> Result<(), Stop>
        ensures { Answers result self.new (step_of self.old (placed lexeme)) }
    {
        self.next = self.parts.advance(self.next, lexeme)?;
        Ok(())
    }

    fn finish(self) -> Result<Ast, Stop> {
        let ScriptReader { next, parts } = self;
        match next {
            Next::Have => parts.finish(),
            _ => Err(Stop::Wrong),
        }
    }

    fn lacks_value(token: &Token) -> bool {
        is_large(token)
    }
}
