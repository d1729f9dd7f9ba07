// Reads a text from the left in one pass.
ghost use Rattle.std.specs.Prelude.{◌≡◌, Bool, List, Option, None, [], Result, length};
ghost use Rattle.gr_base.specs.declared.fault.FaultKind.{FaultKind as Kind};
ghost use Rattle.gr_text.specs.Cut.{Cut, Placed, cut};
ghost use Rattle.gr_text.specs.Lexing.{left_of, placed};
ghost use Rattle.gr_text.specs.Inside.Reading.{Answers, Finishes, Outcome, Rules, Shrinks, HasRead, Tells, Turned, first_with, rules_by};

use crate::fault::{TextFault, refused};
use crate::lexer::{Found, Lexeme, Lexer, Token};
use crate::stop::Stop;
use gr_base::FaultKind;
use std::alloc::Global;

/// A reader of texts of one grammar, which takes them token by token. Its value is the state that it is in.
pub trait Reader: Drop + Sized {
    /// What its texts are cut into.
    type Token: Token;
    /// What it makes of a text.
    type Tree: Drop;

    /// What comes of a token.
    ghost steps: { Self → Placed Self.Token → Outcome Self };

    /// What is made of a text that ends here.
    ghost ends: { Self → Option Self.Tree };

    /// Whether a token is a number that has no value here.
    ghost has_no_value: { Self.Token → Bool };

    /// Takes the next token.
    fn step(&mut self, lexeme: Lexeme<Self::Token>) -> Result<(), Stop>
        ensures { Answers result self.new (steps self.old (placed lexeme)) };

    /// The text ends here.
    fn finish(self) -> Result<Self::Tree, Stop>
        ensures { Finishes result (ends self) };

    /// Whether a token is a number that has no value here.
    fn lacks_value(token: &Self::Token) -> bool
        ensures { result ≡ has_no_value token.now };
}

/// What comes of a turn of a reader.
#[derive(Clone, Copy)]
enum Progress {
    /// The text may go on.
    Goes,
    /// It has no more tokens.
    Ends,
}

/// What a reader makes of a text, or why the text is refused: for this, where it is not for its depth or a number.
pub fn read<R: Reader>(
    alloc: Global,
    reader: R,
    otherwise: FaultKind,
    text: &str,
) -> Result<R::Tree, TextFault>
    ensures { Tells (rules_by R.steps R.ends R.has_no_value R.Token.IsText otherwise reader) (cut R.Token.starts text.now) result }
{
    let mut reader = reader;
    let mut lexer = Lexer::new(text);
    let mut valueless = None;
    'tokens: loop {
        match turn(alloc, &mut reader, &mut lexer, &mut valueless, otherwise)? {
            Progress::Goes => {}
            Progress::Ends => return ended(reader, valueless, otherwise, text.len() as u64),
        }
    }
}

/// Takes the next token.
fn turn<R: Reader>(
    alloc: Global,
    reader: &mut R,
    lexer: &mut Lexer<'_, R::Token>,
    valueless: &mut Option<u64>,
    otherwise: FaultKind,
) -> Result<Progress, TextFault>
    ensures turned { (start : R) (whole : Cut R.Token) → let rules : Rules R.Token R R.Tree = rules_by R.steps R.ends R.has_no_value R.Token.IsText otherwise start in HasRead rules whole (left_of R.Token.starts lexer.old) reader.old valueless.old → Turned rules whole result (left_of R.Token.starts lexer.new) reader.new valueless.new }
    ensures shrinks { Shrinks result (left_of R.Token.starts lexer.old) (left_of R.Token.starts lexer.new) }
{
    match lexer.next(alloc)? {
        Found::Lexeme(lexeme) => {
            let at = lexeme.at;
            *valueless = first_valueless::<R>(*valueless, &lexeme);
            match reader.step(lexeme) {
                Ok(()) => Ok(Progress::Goes),
                Err(stop) => Err(stop.fault(otherwise, at)),
            }
        }
        Found::Stranger(at) => Err(Stop::Wrong.fault(otherwise, at)),
        Found::End => Ok(Progress::Ends),
    }
}

/// The first token without a value, with one more token.
fn first_valueless<R: Reader>(valueless: Option<u64>, lexeme: &Lexeme<R::Token>) -> Option<u64>
    ensures { result ≡ first_with valueless R.has_no_value (placed lexeme.now) }
{
    match valueless {
        Some(at) => Some(at),
        None if R::lacks_value(&lexeme.token) => Some(lexeme.at),
        None => None,
    }
}

/// What is made of a text that ends here, unless a token of it has no value.
fn ended<R: Reader>(
    reader: R,
    valueless: Option<u64>,
    otherwise: FaultKind,
    len: u64,
) -> Result<R::Tree, TextFault>
    ensures { (start : R) (whole now : Cut R.Token) → let rules : Rules R.Token R R.Tree = rules_by R.steps R.ends R.has_no_value R.Token.IsText otherwise start in HasRead rules whole now reader valueless → now.tokens ≡ [] → now.stranger ≡ None → whole.length ≡ len → Tells rules whole result }
{
    match reader.finish() {
        Ok(tree) => match valueless {
            None => Ok(tree),
            Some(at) => Err(refused(FaultKind::BadNumber, at)),
        },
        Err(stop) => Err(stop.fault(otherwise, len)),
    }
}
