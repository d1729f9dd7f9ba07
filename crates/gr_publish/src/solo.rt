// Publishing on one thread.
ghost use Rattle.std.specs.Prelude.{◌≡◌, [], IfOk};
ghost use Rattle.std.specs.Arc.{arc_value};
ghost use Rattle.gr_base.specs.Limits.{IsInRange};
ghost use Rattle.gr_root.specs.Root.{HoldsText};
ghost use Rattle.gr_db.specs.Entry.{IsValid};
ghost use Rattle.gr_db.specs.Apply.{replay};
ghost use Rattle.gr_publish.specs.Inside.Applying.{AppliesShared};
ghost use Rattle.gr_publish.specs.Publish.{Publishes};

use super::Published;
use gr_base::{Failure, Fault, Limits, NoMemory};
use gr_db::Entry;
use gr_root::Root;
use std::alloc::Global;
use std::marker::Model;
use std::sync::Arc;

/// The newest state on one thread, which contracts see as that state.
#[derive(Drop)]
pub struct Solo {
    root: Arc<Root>,
}

impl Model for Solo {
    ghost use Rattle.gr_db.specs.contracts.shared_expr.SharedExpr as shared;
    ghost use Rattle.gr_root.specs.Root.{Rooted};
    ghost use Rattle.std.specs.Arc.{arc_value};
    ghost use Rattle.std.specs.Coded.{codes};

    ghost Value = { Rooted };

    ghost coded = { Prim.hlevel (codes, shared.the_row.coded) };

    ghost view = { λ solo. arc_value solo.root };
}

impl Solo {
    /// The empty state under these limits.
    pub fn new(alloc: Global, limits: Limits) -> Result<Solo, NoMemory>
        requires { IsInRange limits }
        ensures { IfOk result (λ solo. solo ≡ record { limits = limits; journal = [] }) }
    {
        let root = Arc::new(alloc, Root::empty(limits))?;
        Ok(Solo { root })
    }

    /// The newest state, lent.
    pub fn pin(&self) -> &Arc<Root>
        ensures { arc_value result.now ≡ self.now }
    {
        &self.root
    }

    /// Publishes an entry, or says why not.
    pub fn publish(&mut self, alloc: Global, entry: Entry) -> Published
        requires valid { IsValid (replay self.old.journal).schema entry.change }
        requires text { HoldsText entry.change }
        ensures { Publishes self.old self.new entry result }
    {
        let mark = self.root.journal().len();
        match self.applied(alloc, entry) {
            Ok(root) => {
                self.root = root;
                Published::Published { place: mark }
            }
            Err(Failure::Refused(fault)) => Published::Refused { fault, mark },
            Err(Failure::NoMemory) => Published::NoMemory { mark },
        }
    }

    // The state after an entry, or why there is none.
    fn applied(&self, alloc: Global, entry: Entry) -> Result<Arc<Root>, Failure<Fault>>
        requires valid { IsValid (replay self.now.journal).schema entry.change }
        requires text { HoldsText entry.change }
        ensures { AppliesShared self.now entry result }
    {
        let entry = Arc::new(alloc, entry)?;
        let root = self.root.applied(alloc, entry)?;
        Ok(Arc::new(alloc, root)?)
    }

    /// The newest state.
    pub fn close(self) -> Arc<Root>
        ensures { arc_value result ≡ self }
    {
        self.root
    }
}
