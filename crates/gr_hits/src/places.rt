// Where the terms of a phrase stand.
ghost use Rattle.std.specs.Prelude.{◌≡◌, ◌++◌, ◌∷◌, [], OnErr, OnOk};
ghost use Rattle.std.specs.List.{AllByRecursion};
ghost use Rattle.gr_hits.specs.Places.{Ascend, IsBefore};

use gr_base::{NoMemory, RecordId};
use std::alloc::Global;
use std::marker::Model;

/// Places of one term of a phrase: records, and positions in their texts, ascending.
#[derive(Drop)]
pub struct PlaceList {
    places: Vec<(RecordId, u64)>,
}

impl Model for PlaceList {
    ghost use Rattle.std.specs.Prelude.{List};
    ghost use Rattle.gr_hits.specs.Places.{Ascend, Place};

    ghost Value = { List Place };

    ghost view = { λ list. list.places.items };

    ghost invariant = { λ list. Ascend list.places.items };
}

impl PlaceList {
    /// No places; takes no memory.
    pub fn new(alloc: Global) -> PlaceList
        ensures { result ≡ [] }
    {
        PlaceList {
            places: Vec::new(alloc),
        }
    }

    /// Appends a place.
    pub fn push(&mut self, id: RecordId, position: u64) -> Result<(), NoMemory>
        requires later { AllByRecursion (λ place. IsBefore place (id, position)) self.old }
        ensures ok { OnOk result (self.new ≡ self.old ++ (id, position) ∷ []) }
        ensures err { OnErr result (self.new ≡ self.old) }
    {
        self.places.push((id, position))?;
        Ok(())
    }

    /// The places, lent.
    pub(crate) fn as_slice(&self) -> &[(RecordId, u64)]
        ensures exact { result.now ≡ self.now }
        ensures order { Ascend self.now }
    {
        self.places.as_slice()
    }
}
