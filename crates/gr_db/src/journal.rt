// The journal, which contracts see as the list of its entries.
ghost use Rattle.std.specs.Prelude.{◌≡◌, ◌<◌, ◌^◌, ◌++◌, ◌∷◌, [], IfOk, length, slice_get};
ghost use Rattle.std.specs.Option.{option_copied};
ghost use Rattle.std.specs.Arc.{arc_value};

use crate::Entry;
use gr_base::NoMemory;
use gr_pvec::PVec;
use std::alloc::Global;
use std::marker::Model;
use std::sync::Arc;

/// The entries that were accepted, in order. A longer journal shares the entries of the one before it.
#[derive(Drop)]
pub struct Journal {
    entries: PVec<Entry>,
}

impl Model for Journal {
    ghost use Rattle.std.specs.Prelude.{List};
    ghost use Rattle.gr_db.specs.contracts.shared_expr.SharedExpr as shared;
    ghost use Rattle.gr_db.specs.declared.entry.Entry.{Entry};
    ghost use Rattle.std.specs.Coded.{codes};

    ghost Value = { List Entry };

    ghost coded = { Prim.hlevel (codes, shared.the_row.coded) };

    ghost view = { λ journal. journal.entries };
}

impl Journal {
    /// The journal without entries; takes no memory.
    pub fn new() -> Journal
        ensures { result ≡ [] }
    {
        Journal {
            entries: PVec::new(),
        }
    }

    /// How many entries it has.
    pub fn len(&self) -> u64
        ensures { result ≡ length self.now }
    {
        self.entries.len()
    }

    /// The entry at a place, counted from 0.
    pub fn get(&self, place: u64) -> Option<&Entry>
        ensures { option_copied result ≡ slice_get self.now place }
    {
        self.entries.get(place)
    }

    /// The journal with one entry more.
    pub fn pushed(&self, alloc: Global, entry: Arc<Entry>) -> Result<Journal, NoMemory>
        requires { length self.now < 2 ^ 63 }
        ensures { IfOk result (λ journal. journal ≡ self.now ++ arc_value entry ∷ []) }
    {
        Ok(Journal {
            entries: self.entries.pushed(alloc, entry)?,
        })
    }
}
