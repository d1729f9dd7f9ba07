// Records with their scores.
use gr_base::RecordId;
use std::marker::Model;

/// Records, each with its score, in an order.
#[derive(Drop)]
pub struct HitRows {
    /// The records' ids and scores.
    pub rows: Vec<(RecordId, u32)>,
}

impl Model for HitRows {
    ghost use Rattle.std.specs.Prelude.{List, ℕ};
    ghost use Rattle.std.specs.Coded.{coded_list, coded×, coded_ℕ};
    ghost use Rattle.gr_base.specs.declared.numbers.RecordId.{RecordId};

    ghost Value = { List (RecordId × ℕ) };

    ghost view = { λ hits. hits.rows.items };
}
