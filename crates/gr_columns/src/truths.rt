// Truth values by place, one word a block. Places that no word reaches hold false.
ghost use Rattle.std.specs.Prelude.{◌≡◌, ◌<◌, ◌/◌, [], IfOk, OnOk, OnErr, false, length, map, slice_set};
ghost use Rattle.gr_columns.specs.Places.{value_at, SetsPlace};
ghost use Rattle.gr_columns.specs.Truths.{IsWord};
ghost use Rattle.gr_columns.specs.Inside.Places.{changed_at};
ghost use Rattle.gr_columns.specs.Inside.Truths.{bits_of};

use crate::places::{BLOCK_CELLS, block_of, place_in_block, reaching};
use gr_base::NoMemory;
use gr_pvec::PVec;
use std::alloc::Global;
use std::marker::Model;
use std::sync::Arc;

/// Truth values by place. A place that was never set has false. A word has the values of a block: bit i of word b is that of place `BLOCK_CELLS` · b + i.
/// A changed copy shares all but one word and the path to it.
#[derive(Drop)]
pub struct Truths {
    blank: Arc<u64>,
    words: PVec<u64>,
}

impl Model for Truths {
    ghost use Rattle.std.specs.Prelude.{Bool, false, List, map};
    ghost use Rattle.std.specs.Arc.{arc_value};
    ghost use Rattle.gr_columns.specs.Inside.Places.{values_of, ArePlaces};
    ghost use Rattle.gr_columns.specs.Inside.Truths.{bits_of};

    ghost Value = { Bool × List Bool };

    ghost view = { λ truths. (false, values_of (map bits_of truths.words)) };

    ghost invariant = { λ truths. ArePlaces false (bits_of (arc_value truths.blank)) (map bits_of truths.words) };
}

impl Truths {
    /// False at each place.
    pub fn new(alloc: Global) -> Result<Truths, NoMemory>
        ensures { IfOk result (λ made. made ≡ (false, [])) }
    {
        Ok(Truths {
            blank: Arc::new(alloc, 0)?,
            words: PVec::new(),
        })
    }

    /// The value at a place.
    pub fn get(&self, i: u32) -> bool
        ensures { result ≡ value_at self.now i }
    {
        match self.words.get(block_of(i)) {
            Some(word) => *word >> place_in_block(i) & 1 == 1,
            None => false,
        }
    }

    /// The values of a block: bit i is that of place `BLOCK_CELLS` · block + i.
    pub fn word(&self, block: u32) -> u64
        ensures { IsWord self.now block result }
    {
        match self.words.get(u64::from(block)) {
            Some(word) => *word,
            None => 0,
        }
    }

    /// The same values once more, which share everything.
    pub fn try_clone(&self) -> Result<Truths, NoMemory>
        ensures { IfOk result (λ copy. copy ≡ self.now) }
    {
        Ok(Truths {
            blank: Arc::try_clone(&self.blank)?,
            words: self.words.try_clone()?,
        })
    }

    /// Puts another value at a place. One word is copied, and what has other owners on the way to it.
    pub fn set(&mut self, alloc: Global, i: u32, value: bool) -> Result<(), NoMemory>
        ensures ok { OnOk result (SetsPlace self.old self.new i value) }
        ensures err { OnErr result (self.new ≡ self.old) }
    {
        if block_of(i) < self.words.len() {
            return put_bit(&mut self.words, alloc, i, value);
        }
        let mut grown = reaching(&self.words, alloc, &self.blank, block_of(i))?;
        put_bit(&mut grown, alloc, i, value)?;
        self.words = grown;
        Ok(())
    }
}

/// Puts another value at a place of a word that is there.
fn put_bit(words: &mut PVec<u64>, alloc: Global, i: u32, value: bool) -> Result<(), NoMemory>
    requires { i / BLOCK_CELLS < length words.old }
    ensures ok { OnOk result (map bits_of words.new ≡ changed_at (map bits_of words.old) i value) }
    ensures err { OnErr result (words.new ≡ words.old) }
{
    let k = block_of(i);
    match words.get(k) {
        Some(word) => {
            let changed = with_bit(*word, place_in_block(i), value);
            words.set(alloc, k, Arc::new(alloc, changed)?)
        }
        None => unreachable!(),
    }
}

/// The word with another value at a bit.
fn with_bit(word: u64, place: usize, value: bool) -> u64
    requires { place < BLOCK_CELLS }
    ensures { bits_of result ≡ slice_set (bits_of word) place value }
{
    let bit = 1 << place;
    if value { word | bit } else { word & !bit }
}
