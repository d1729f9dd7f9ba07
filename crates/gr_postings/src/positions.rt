// Where in a record a term stands.
ghost use Rattle.std.specs.Prelude.{◌≡◌, ◌∷◌, [], IfOk};
ghost use Rattle.gr_postings.specs.Positions.{IsRising};

use gr_base::NoMemory;
use std::alloc::Global;
use std::boxed::Box;
use std::marker::Model;

/// Positions, each above the one before. A single one takes no allocation.
#[derive(Drop)]
pub struct Positions {
    kept: Kept,
}

/// Where positions stand.
#[derive(Drop)]
enum Kept {
    /// One, in place.
    One(u64),
    /// Any other number of them, behind one pointer, so that a posting stays small.
    Many(Box<Vec<u64>>),
}

impl Model for Positions {
    ghost use Rattle.std.specs.Prelude.{List, ℕ};
    ghost use Rattle.gr_postings.specs.Inside.Kept.{positions_of};
    ghost use Rattle.gr_postings.specs.Positions.{IsRising};

    ghost Value = { List ℕ };

    ghost view = { λ positions. positions_of positions.kept };

    ghost invariant = { λ positions. IsRising (positions_of positions.kept) };
}

impl Positions {
    /// One position.
    pub fn one(position: u64) -> Positions
        ensures { result ≡ position ∷ [] }
    {
        let kept = Kept::One(position);
        Positions { kept }
    }

    /// Takes a vector's positions over, which must rise.
    pub fn from_vec(alloc: Global, positions: Vec<u64>) -> Result<Positions, NoMemory>
        requires { IsRising positions.items }
        ensures { IfOk result (λ made. made ≡ positions.items) }
    {
        if let [position] = positions.as_slice() {
            return Ok(Positions::one(*position));
        }
        let kept = Kept::Many(Box::new(alloc, positions)?);
        Ok(Positions { kept })
    }

    /// The positions, lent.
    pub fn as_slice(&self) -> &[u64]
        ensures exact { result.now ≡ self.now }
        ensures rising { IsRising self.now }
    {
        match &self.kept {
            Kept::One(position) => std::slice::from_ref(position),
            Kept::Many(positions) => positions.as_slice(),
        }
    }
}
