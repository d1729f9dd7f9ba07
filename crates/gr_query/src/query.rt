// From a query's text to its tree, or to its fault.
ghost use Rattle.std.specs.Prelude.{◌≡◌, ℕ, List, IfOk, IfErr};
ghost use Rattle.gr_base.specs.declared.fault.FaultKind.{FaultKind as Kind};
ghost use Rattle.gr_ast.specs.declared.ast.Ast.{Ast as Tree};
ghost use Rattle.gr_ast.specs.Made.{IsMade, IsOfQuery};
ghost use Rattle.gr_query.specs.Text.{IsQuery, IsRefused, IsRefusal};
ghost use Rattle.gr_query.specs.Token.{tokens_of};

use crate::reader::QueryReader;
use gr_ast::Ast;
use gr_base::FaultKind;
use gr_text::{TextFault, read};
use std::alloc::Global;

/// The tree of a query. It is `Err` of `Refused` exactly where the text is no query, with the first place that is wrong.
pub fn parse(alloc: Global, text: &str) -> Result<Ast, TextFault>
    ensures query { IfOk result (IsQuery (tokens_of text.now)) }
    ensures made { IfOk result IsMade }
    ensures shape { IfOk result IsOfQuery }
    ensures refused { IfErr result (IsRefusal (tokens_of text.now)) }
{
    read(alloc, QueryReader::new(alloc), FaultKind::BadQuery, text)
}

/// A text has one tree at most, or one fault at one place, and not both. The function does nothing: its contract is the law.
pub fn one_answer()
    ensures tree { (text : List ℕ) (x y : Tree) → IsQuery (tokens_of text) x → IsQuery (tokens_of text) y → x ≡ y }
    ensures fault { (text : List ℕ) (kind other : Kind) (at place : ℕ) → IsRefused (tokens_of text) kind at → IsRefused (tokens_of text) other place → (kind ≡ other) × (at ≡ place) }
    ensures either { (text : List ℕ) (x : Tree) (kind : Kind) (at : ℕ) → IsQuery (tokens_of text) x → IsRefused (tokens_of text) kind at → ⊥ }
{}
