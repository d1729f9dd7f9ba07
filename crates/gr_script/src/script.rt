// From a script's text to its tree, or to its fault.
ghost use Rattle.std.specs.Prelude.{IfErr, IfOk};
ghost use Rattle.gr_ast.specs.Made.{IsMade, IsOfScript};
ghost use Rattle.gr_script.specs.Text.{IsRefusal, IsScript};
ghost use Rattle.gr_script.specs.Token.{tokens_of};

use crate::reader::ScriptReader;
use gr_ast::Ast;
use gr_base::FaultKind;
use gr_text::{TextFault, read};
use std::alloc::Global;

/// The tree of a script. It is `Err` of `Refused` exactly where the text is no script, with the first place that is wrong.
pub fn parse(alloc: Global, text: &str) -> Result<Ast, TextFault>
    ensures script { IfOk result (IsScript (tokens_of text.now)) }
    ensures made { IfOk result IsMade }
    ensures shape { IfOk result IsOfScript }
    ensures refused { IfErr result (IsRefusal (tokens_of text.now)) }
{
    read(alloc, ScriptReader::new(alloc), FaultKind::BadScript, text)
}
