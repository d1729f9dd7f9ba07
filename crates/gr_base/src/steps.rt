// A count of steps, by which a contract says how much a walk reads.
ghost use Rattle.std.specs.Prelude.{◌≡◌, ◌+◌, min};

use std::marker::Model;

/// How many steps were taken: each cell and each posting that is read is one. A walk is lent a count, and its contract says by how much it rises.
#[derive(Drop)]
pub struct Steps {
    count: u64,
}

impl Model for Steps {
    ghost use Rattle.std.specs.Prelude.{ℕ};

    ghost Value = { ℕ };

    ghost view = { λ steps. steps.count };
}

impl Steps {
    /// No step yet.
    pub fn new() -> Steps
        ensures { result ≡ 0 }
    {
        Steps { count: 0 }
    }

    /// One step more. At 2^64 - 1 the count stands still.
    pub fn tick(&mut self)
        ensures { self.new ≡ min (self.old + 1) u64.MAX }
    {
        self.count = self.count.saturating_add(1);
    }

    /// How many steps were taken.
    pub fn count(&self) -> u64
        ensures { result ≡ self.now }
    {
        self.count
    }
}
