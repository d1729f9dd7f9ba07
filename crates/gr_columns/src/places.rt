// Values by place, in full blocks. Places that no block reaches hold the default.
ghost use Rattle.std.specs.Prelude.{◌≡◌, ◌<◌, ◌≤◌, ◌+◌, ◌-◌, ◌*◌, ◌/◌, ◌%◌, ◌^◌, ◌++◌, ℕ, [], Some, IfOk, OnOk, OnErr, length, replicate, slice_get, slice_set, slice_index_or};
ghost use Rattle.std.specs.Arc.{arc_value};
ghost use Rattle.gr_columns.specs.Places.{value_at, SetsPlace};
ghost use Rattle.gr_columns.specs.Inside.Places.{changed_at, AreBlocks};

use crate::again::{Again, each_again};
use gr_base::{ListOf, NoMemory};
use gr_pvec::PVec;
use std::alloc::Global;
use std::marker::Model;
use std::sync::Arc;

/// How many cells stand in a block. Block b of a column has the cells of the ids from `BLOCK_CELLS` · b on.
pub const BLOCK_CELLS: u32 = 64;

/// The bits of an id that say which cell of its block is meant.
const BITS: u32 = 6;

/// The block that a place is in.
pub(crate) fn block_of(i: u32) -> u64
    ensures { result ≡ i / BLOCK_CELLS }
{
    u64::from(i >> BITS)
}

/// The place within its block.
pub(crate) fn place_in_block(i: u32) -> usize
    ensures exact { result ≡ i % BLOCK_CELLS }
    ensures within { result < BLOCK_CELLS }
{
    (i % BLOCK_CELLS) as usize
}

/// Values by place. A place that was never set has the default. The values stand in blocks of `BLOCK_CELLS`; a changed copy shares all but one block
/// and the path to it, and the blocks that were never set share one, so that each of them takes 8 bytes.
#[derive(Drop)]
pub struct Places<T> {
    default: T,
    blank: Arc<ListOf<T>>,
    blocks: PVec<ListOf<T>>,
}

impl<T> Model for Places<T> {
    ghost use Rattle.std.specs.Prelude.{List};
    ghost use Rattle.std.specs.Coded.{coded_list, coded×};
    ghost use Rattle.std.specs.Arc.{arc_value};

    ghost Value = { T × List T };

    ghost coded = { coded× T.code (coded_list T.code) };

    ghost use Rattle.gr_columns.specs.Inside.Places.{values_of, ArePlaces};

    ghost view = { λ places. (places.default, values_of places.blocks) };

    ghost invariant = { λ places. ArePlaces places.default (arc_value places.blank) places.blocks };
}

impl<T> Places<T> {
    /// The value at a place, lent.
    pub fn get(&self, i: u32) -> &T
        ensures { result.now ≡ value_at self.now i }
    {
        match self.blocks.get(block_of(i)) {
            Some(block) => &block.as_slice()[place_in_block(i)],
            None => &self.default,
        }
    }

    /// The values of a block, lent.
    pub fn block(&self, block: u32) -> &[T]
        ensures whole { length result.now ≡ BLOCK_CELLS }
        ensures exact { (place : ℕ) → place < BLOCK_CELLS → slice_get result.now place ≡ Some (value_at self.now (BLOCK_CELLS * block + place)) }
    {
        match self.blocks.get(u64::from(block)) {
            Some(values) => values.as_slice(),
            None => self.blank.as_slice(),
        }
    }
}

impl<T: Again + Drop> Places<T> {
    /// The default at each place.
    pub fn new(alloc: Global, default: T) -> Result<Places<T>, NoMemory>
        ensures { IfOk result (λ made. made ≡ (default, [])) }
    {
        let blank = Arc::new(alloc, repeated(alloc, &default)?)?;
        Ok(Places {
            default,
            blank,
            blocks: PVec::new(),
        })
    }

    /// The same values once more, which share everything.
    pub fn try_clone(&self) -> Result<Places<T>, NoMemory>
        ensures { IfOk result (λ copy. copy ≡ self.now) }
    {
        Ok(Places {
            default: self.default.again()?,
            blank: Arc::try_clone(&self.blank)?,
            blocks: self.blocks.try_clone()?,
        })
    }

    /// Puts another value at a place. One block is copied, and what has other owners on the way to it.
    pub fn set(&mut self, alloc: Global, i: u32, value: T) -> Result<(), NoMemory>
        ensures ok { OnOk result (SetsPlace self.old self.new i value) }
        ensures err { OnErr result (self.new ≡ self.old) }
    {
        if block_of(i) < self.blocks.len() {
            return put(&mut self.blocks, alloc, i, value);
        }
        let mut grown = reaching(&self.blocks, alloc, &self.blank, block_of(i))?;
        put(&mut grown, alloc, i, value)?;
        self.blocks = grown;
        Ok(())
    }
}

/// A block of one value.
fn repeated<T: Again + Drop>(alloc: Global, value: &T) -> Result<ListOf<T>, NoMemory>
    ensures { IfOk result (λ block. block ≡ replicate BLOCK_CELLS value.now) }
{
    let mut items = Vec::with_capacity(alloc, BLOCK_CELLS as usize)?;
    for _ in 0..BLOCK_CELLS {
        items.push(value.again()?)?;
    }
    Ok(ListOf::from_vec(items))
}

/// The blocks, and after them as many more owners of a blank one as reach to block `k`.
pub(crate) fn reaching<B: Drop>(
    blocks: &PVec<B>,
    alloc: Global,
    blank: &Arc<B>,
    k: u64,
) -> Result<PVec<B>, NoMemory>
    requires past { length blocks.now ≤ k }
    requires short { k < 2 ^ 63 }
    ensures { IfOk result (λ grown. grown ≡ blocks.now ++ replicate (k + 1 - length blocks.now) (arc_value blank.now)) }
{
    let mut grown = blocks.try_clone()?;
    for _ in blocks.len()..k + 1 {
        grown.push(alloc, Arc::try_clone(blank)?)?;
    }
    Ok(grown)
}

/// Puts another value at a place of a block that is there.
fn put<T: Again + Drop>(
    blocks: &mut PVec<ListOf<T>>,
    alloc: Global,
    i: u32,
    value: T,
) -> Result<(), NoMemory>
    requires full { AreBlocks blocks.old }
    requires there { i / BLOCK_CELLS < length blocks.old }
    ensures ok { OnOk result (blocks.new ≡ changed_at blocks.old i value) }
    ensures err { OnErr result (blocks.new ≡ blocks.old) }
{
    let k = block_of(i);
    match blocks.get(k) {
        Some(block) => {
            let changed = changed(alloc, block.as_slice(), place_in_block(i), value)?;
            blocks.set(alloc, k, Arc::new(alloc, changed)?)
        }
        None => unreachable!(),
    }
}

/// The values with another one at a place.
fn changed<T: Again + Drop>(
    alloc: Global,
    values: &[T],
    place: usize,
    value: T,
) -> Result<ListOf<T>, NoMemory>
    requires { place < length values.now }
    ensures { IfOk result (λ made. made ≡ slice_set values.now place value) }
{
    let mut items = each_again(alloc, values)?;
    items[place] = value;
    Ok(ListOf::from_vec(items))
}
