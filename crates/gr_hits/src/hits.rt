// Records that were found, each with its score.
ghost use Rattle.std.specs.Prelude.{◌≡◌, ◌<◌, ◌++◌, ◌∷◌, List, [], OnErr, OnOk, length, slice_get};
ghost use Rattle.std.specs.List.{AllByRecursion};
ghost use Rattle.gr_base.specs.declared.numbers.RecordId.{RecordId};
ghost use Rattle.gr_hits.specs.Hits.{AreHits, Hit, IsScore, score_of};

use gr_base::{NoMemory, RecordId};
use std::alloc::Global;
use std::marker::Model;

/// Records that were found, by ascending id, each once and with its score.
#[derive(Drop)]
pub struct HitList {
    hits: Vec<(RecordId, u32)>,
}

impl Model for HitList {
    ghost use Rattle.std.specs.Prelude.{List};
    ghost use Rattle.gr_hits.specs.Hits.{AreHits, Hit};

    ghost Value = { List Hit };

    ghost view = { λ list. list.hits.items };

    ghost invariant = { λ list. AreHits list.hits.items };
}

impl HitList {
    /// No hits; takes no memory.
    pub fn new(alloc: Global) -> HitList
        ensures { result ≡ [] }
    {
        HitList {
            hits: Vec::new(alloc),
        }
    }

    /// The hits of a vector; takes no memory.
    pub(crate) fn from_vec(hits: Vec<(RecordId, u32)>) -> HitList
        requires { AreHits hits.items }
        ensures { result ≡ hits.items }
    {
        HitList { hits }
    }

    /// Appends a hit.
    pub fn push(&mut self, id: RecordId, score: u32) -> Result<(), NoMemory>
        requires later { AllByRecursion (λ hit. hit.0.0 < id.0) self.old }
        requires score { IsScore score }
        ensures ok { OnOk result (self.new ≡ self.old ++ (id, score) ∷ []) }
        ensures err { OnErr result (self.new ≡ self.old) }
    {
        self.hits.push((id, score))?;
        Ok(())
    }

    /// The number of hits.
    pub fn len(&self) -> u64
        ensures { result ≡ length self.now }
    {
        self.hits.len() as u64
    }

    /// The hit at a place, counted from 0.
    pub fn get(&self, place: u64) -> Option<(RecordId, u32)>
        ensures { result ≡ slice_get self.now place }
    {
        self.hits.get(place as usize).copied()
    }

    /// The hits, lent.
    pub fn as_slice(&self) -> &[(RecordId, u32)]
        ensures exact { result.now ≡ self.now }
        ensures hits { AreHits self.now }
    {
        self.hits.as_slice()
    }
}

/// A law: two lists of hits in which each record has the same score are one.
pub fn scores_tell_apart()
    ensures { (one other : List Hit) → AreHits one → AreHits other → ((id : RecordId) → score_of one id ≡ score_of other id) → one ≡ other }
{}
