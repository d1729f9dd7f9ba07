// A condition that entries share.
ghost use Rattle.std.specs.Prelude.{◌≡◌, IfOk};
ghost use Rattle.std.specs.Arc.{arc_value};

use gr_base::NoMemory;
use gr_expr::Expr;
use std::alloc::Global;
use std::marker::Model;
use std::sync::Arc;

/// A condition with one or more owners, which contracts see as the condition.
#[derive(Drop)]
pub struct SharedExpr {
    expr: Arc<Expr>,
}

impl Model for SharedExpr {
    ghost use Rattle.gr_expr.specs.contracts.typed.Expr as typed;
    ghost use Rattle.gr_expr.specs.declared.typed.Expr.{Expr};
    ghost use Rattle.std.specs.Arc.{arc_value};
    ghost use Rattle.std.specs.Coded.{codes};

    ghost Value = { Expr };

    ghost coded = { Prim.hlevel (codes, typed.the_row.coded) };

    ghost view = { λ shared. arc_value shared.expr };
}

impl SharedExpr {
    /// A condition with one owner.
    pub fn new(alloc: Global, expr: Expr) -> Result<SharedExpr, NoMemory>
        ensures { IfOk result (λ shared. shared ≡ expr) }
    {
        Ok(SharedExpr {
            expr: Arc::new(alloc, expr)?,
        })
    }

    /// The condition, lent.
    pub fn get(&self) -> &Expr
        ensures { result.now ≡ self.now }
    {
        &self.expr
    }

    /// One more owner. It fails only where the count of owners is full.
    pub fn try_clone(&self) -> Result<SharedExpr, NoMemory>
        ensures { IfOk result (λ copy. copy ≡ self.now) }
    {
        Ok(SharedExpr {
            expr: Arc::try_clone(&self.expr)?,
        })
    }
}
