// Texts that never change: short ones in place, longer ones shared.
ghost use Rattle.std.specs.Prelude.{◌≡◌, IfOk, IfSome, IsUtf8, string_bytes};

use super::NoMemory;
use crate::short::{LONGEST_IN_PLACE, Short};
use std::alloc::Global;
use std::cmp::Ordering;
use std::marker::Model;
use std::sync::Arc;

/// A text that never changes. A text of up to `LONGEST_IN_PLACE` bytes, 14, takes no allocation; a copy of a longer one is one more owner of the same bytes.
#[derive(Drop)]
pub struct Bytes {
    kept: Kept,
}

/// Where a text stands.
#[derive(Drop)]
enum Kept {
    /// In place.
    Short(Short),
    /// Shared by all its copies.
    Long(Arc<Vec<u8>>),
}

impl Model for Bytes {
    ghost use Rattle.std.specs.Prelude.{List, ℕ};
    ghost use Rattle.gr_base.specs.Inside.Kept.{text_of};

    ghost Value = { List ℕ };

    ghost view = { λ bytes. text_of bytes.kept };
}

impl Bytes {
    /// Takes a vector's bytes over. Of a short text they are copied, and of a longer one the one allocation is that of the shared count.
    pub fn from_vec(alloc: Global, bytes: Vec<u8>) -> Result<Bytes, NoMemory>
        ensures { IfOk result (λ made. made ≡ bytes.items) }
    {
        if let Some(text) = Bytes::short(bytes.as_slice()) {
            return Ok(text);
        }
        let shared = Arc::new(alloc, bytes)?;
        let kept = Kept::Long(shared);
        Ok(Bytes { kept })
    }

    /// Copies a short slice.
    fn short(bytes: &[u8]) -> Option<Bytes>
        ensures { IfSome result (λ text. text ≡ bytes.now) }
    {
        if bytes.len() <= LONGEST_IN_PLACE {
            let kept = Kept::Short(Short::from_slice(bytes));
            Some(Bytes { kept })
        } else {
            None
        }
    }

    /// Takes a string's bytes over.
    pub fn from_string(alloc: Global, text: String) -> Result<Bytes, NoMemory>
        ensures exact { IfOk result (λ made. made ≡ string_bytes text) }
        ensures utf8 { IfOk result IsUtf8 }
    {
        Bytes::from_vec(alloc, text.into_bytes())
    }

    /// Copies a slice.
    pub fn from_slice(alloc: Global, bytes: &[u8]) -> Result<Bytes, NoMemory>
        ensures { IfOk result (λ made. made ≡ bytes.now) }
    {
        if let Some(text) = Bytes::short(bytes) {
            return Ok(text);
        }
        let copied = Vec::from_slice(alloc, bytes)?;
        Bytes::from_vec(alloc, copied)
    }

    /// The bytes, lent.
    pub fn as_slice(&self) -> &[u8]
        ensures { result.now ≡ self.now }
    {
        match &self.kept {
            Kept::Short(short) => short.as_slice(),
            Kept::Long(shared) => shared.as_slice(),
        }
    }

    /// The text, lent.
    pub fn as_text(&self) -> &str
        requires { IsUtf8 self.now }
        ensures { result.now ≡ self.now }
    {
        match str::from_utf8(self.as_slice()) {
            Ok(text) => text,
            Err(_) => unreachable!(),
        }
    }

    /// The same text once more. It fails only where the count of a longer text's owners is full.
    pub fn try_clone(&self) -> Result<Bytes, NoMemory>
        ensures { IfOk result (λ copy. copy ≡ self.now) }
    {
        match &self.kept {
            Kept::Short(short) => {
                let kept = Kept::Short(Short::from_slice(short.as_slice()));
                Ok(Bytes { kept })
            }
            Kept::Long(shared) => {
                let kept = Kept::Long(Arc::try_clone(shared)?);
                Ok(Bytes { kept })
            }
        }
    }
}

impl PartialEq for Bytes {
    ghost use Rattle.std.specs.Prelude.{◌==◌};
    ghost use Rattle.std.specs.Cmp.Lexicographic.{pointwise};
    ghost use Rattle.std.proofs.Common.{rules};
    ghost use Rattle.std.specs.Cmp.Rules.{comparing};

    ghost eq = { pointwise ◌==◌ };

    ghost laws = { Prim.search (comparing, rules) };

    fn eq(&self, other: &Bytes) -> bool {
        self.as_slice() == other.as_slice()
    }
}

impl Eq for Bytes {
    ghost use Rattle.std.proofs.Common.{rules};
    ghost use Rattle.std.specs.Cmp.Rules.{comparing};

    ghost laws = { Prim.search (comparing, rules) };
}

impl PartialOrd for Bytes {
    ghost use Rattle.std.proofs.Common.{rules};
    ghost use Rattle.std.specs.Cmp.{partial_order_from_own_ties};
    ghost use Rattle.std.specs.Cmp.Rules.{comparing};
    ghost use Rattle.std.specs.Cmp.Lexicographic.{slice_cmp};
    ghost use Rattle.std.specs.Ordering.{as_partial_cmp, nat_cmp};

    ghost partial_cmp = { as_partial_cmp (slice_cmp nat_cmp) };

    ghost laws = { partial_order_from_own_ties (Prim.search (comparing, rules)) (Prim.search (comparing, rules)) };

    fn partial_cmp(&self, other: &Bytes) -> Option<Ordering> {
        Some(self.cmp(other))
    }
}

impl Ord for Bytes {
    ghost use Rattle.std.proofs.Common.{rules};
    ghost use Rattle.std.specs.Cmp.Rules.{comparing};
    ghost use Rattle.std.specs.Cmp.Lexicographic.{slice_cmp};
    ghost use Rattle.std.specs.Ordering.{nat_cmp};

    ghost cmp = { slice_cmp nat_cmp };

    ghost total = { Prim.search (comparing, rules) };

    ghost matches_partial_cmp = { Prim.search (comparing, rules) };

    ghost matches_eq = { Prim.search (comparing, rules) };

    fn cmp(&self, other: &Bytes) -> Ordering {
        self.as_slice().cmp(other.as_slice())
    }
}
