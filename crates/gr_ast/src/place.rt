// Where a tree stands in its text.
ghost use Rattle.std.specs.Prelude.{◌≡◌};
ghost use Rattle.gr_ast.specs.Trees.{place_of};

use crate::ast::Ast;

impl Ast {
    /// The byte place of the first token, grouping brackets left aside.
    #[tactic(auto, unfolding(crate::specs::Trees::place_of))]
    pub fn at(&self) -> u64
        ensures { result ≡ place_of self.now }
    {
        match self {
            Ast::Chain { at, .. } => *at,
            Ast::Not { at, .. } => *at,
            Ast::Minus { at, .. } => *at,
            Ast::Compare { at, .. } => *at,
            Ast::Find { at, .. } => *at,
            Ast::Calc { at, .. } => *at,
            Ast::Between { at, .. } => *at,
            Ast::InValues { at, .. } => *at,
            Ast::Path { at, .. } => *at,
            Ast::Number { at, .. } => *at,
            Ast::Text { at, .. } => *at,
            Ast::Truth { at, .. } => *at,
            Ast::All { at } => *at,
            Ast::Word { at, .. } => *at,
            Ast::FieldTest { at, .. } => *at,
        }
    }
}
