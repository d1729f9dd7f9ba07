// What tells the postings that still hold from those that a later entry took back.
ghost use Rattle.std.specs.Prelude.{◌≡◌, Bool, ℕ};
ghost use Rattle.gr_base.specs.declared.numbers.RecordId.{RecordId};

use gr_base::RecordId;

/// What knows which postings are alive.
pub trait Alive {
    /// Whether the postings of a record that an entry gave are alive; the entry is named by its journal place.
    ghost lives: { Self → RecordId → ℕ → Bool };

    /// Whether a posting of that record and that journal place is alive.
    fn alive(&self, id: RecordId, place: u64) -> bool
        ensures { result ≡ lives self.now id place };
}
