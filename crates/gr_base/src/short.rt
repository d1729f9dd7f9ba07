// Short texts, kept without an allocation.
ghost use Rattle.std.specs.Prelude.{◌≡◌, ◌≤◌, length};

use std::marker::Model;

/// Bytes of a text that is kept without an allocation, at most: with its length it then has as many as a shared text's pointer and tag take in place.
pub(crate) const LONGEST_IN_PLACE: usize = 14;

/// A text of up to `LONGEST_IN_PLACE` bytes. It stands in the first `len` bytes.
#[derive(Drop)]
pub(crate) struct Short {
    len: u8,
    bytes: [u8; LONGEST_IN_PLACE],
}

impl Model for Short {
    ghost use Rattle.std.specs.Prelude.{◌≤◌, List, ℕ, take};
    ghost use Rattle.gr_base.specs.declared.short.TheConstants.{LONGEST_IN_PLACE};

    ghost Value = { List ℕ };

    ghost view = { λ short. take short.len short.bytes };

    ghost invariant = { λ short. short.len ≤ LONGEST_IN_PLACE };
}

impl Short {
    /// Copies a slice.
    pub(crate) fn from_slice(bytes: &[u8]) -> Short
        requires { length bytes.now ≤ LONGEST_IN_PLACE }
        ensures { result ≡ bytes.now }
    {
        let mut kept = [0; LONGEST_IN_PLACE];
        kept.split_at_mut(bytes.len()).0.copy_from_slice(bytes);
        Short {
            len: bytes.len() as u8,
            bytes: kept,
        }
    }

    /// The bytes, lent.
    pub(crate) fn as_slice(&self) -> &[u8]
        ensures exact { result.now ≡ self.now }
        ensures within { length result.now ≤ LONGEST_IN_PLACE }
    {
        self.bytes.split_at(usize::from(self.len)).0
    }
}
