// The columns that a query's words are sought in.
ghost use Rattle.std.specs.Prelude.{◌≡◌, IfOk};

use gr_base::{Bytes, ListOf, NoMemory};

/// A column that a query's words are sought in.
#[derive(Drop)]
pub struct MatchColumn {
    /// Its path, as it is written.
    pub path: Bytes,
    /// The byte place of its path.
    pub at: u64,
    /// By what its score is multiplied, 1 to 1,000.
    pub weight: u32,
}

/// The columns that a query's words are sought in, in order.
pub type MatchColumns = ListOf<MatchColumn>;

impl MatchColumn {
    /// The same column once more. It fails only where the count of a long path's owners is full.
    pub fn try_clone(&self) -> Result<MatchColumn, NoMemory>
        ensures { IfOk result (λ copy. copy ≡ self.now) }
    {
        Ok(MatchColumn {
            path: self.path.try_clone()?,
            at: self.at,
            weight: self.weight,
        })
    }
}
