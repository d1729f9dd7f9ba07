// An index: its segments in levels.
ghost use Rattle.std.specs.Prelude.{◌≡◌, ◌+◌, ◌-◌, ◌<◌, ◌≤◌, true, false, ◌&&◌, nat_eq, IfOk, IfErr, IfSome, MatchOption, MatchResult, [], ◌∷◌, ◌++◌, drop, length, map, take, slice_index_or};
ghost use Rattle.std.specs.List.{All, IsDistinct, count_by, list_all};
ghost use Rattle.gr_postings.specs.Postings.{has_same_place};
ghost use Rattle.gr_chunks.specs.Segments.{all_of, postings_of};
ghost use Rattle.gr_index.specs.Levels.{AreLevels, Part, end_of, is_of_level};
ghost use Rattle.gr_index.specs.Ranges.{IsFaultOf, IsRipe, IsUnripe, fits, goes_up_from, level_after, missing, swapped, within};
ghost use Rattle.gr_index.specs.Inside.Located.{IsLocated, IsOldest, IsSpanFor};
ghost use Rattle.gr_index.specs.Inside.Parts.{part_of};

use crate::limits::{FOLDED_SEGMENTS, MOST_SEGMENTS};
use crate::parts::{Parts, Span};
use crate::ranges::{Stale, beginning, ending};
use gr_base::{Failure, NoMemory};
use gr_chunks::{Chunk, Segment};
use gr_postings::order_tells_apart;
use std::alloc::Global;
use std::marker::Model;
use std::sync::Arc;

/// Postings in segments, in levels 0, 1, 2 and on, the oldest first.
#[derive(Drop)]
pub struct Index {
    /// The journal place of the entry that made the index.
    pub(crate) place: u64,
    pub(crate) parts: Parts,
}

impl Model for Index {
    ghost use Rattle.gr_index.specs.Levels.{AreLevels, Levels};

    ghost Value = { Levels };

    ghost view = { λ index. record { place = index.place; parts = index.parts } };

    ghost invariant = { λ index. AreLevels index.place index.parts };
}

impl Index {
    /// An index that begins at a journal place, with no posting.
    pub fn new(alloc: Global, place: u64) -> Index
        ensures { result ≡ record { place = place; parts = [] } }
    {
        Index {
            place,
            parts: Parts::new(alloc),
        }
    }

    /// A law: what always holds of an index. Its ranges tile the places, a level has at most 64 segments, one of level l covers at least 16 to the power l places, and its postings are in order and have places in its range.
    pub fn are_levels(&self)
        ensures { AreLevels self.now.place self.now.parts }
    {
        let _ = &self.place;
    }

    /// The range of the sixteen oldest segments of the lowest level that has as many.
    pub fn ripe(&self) -> Option<(u64, u64)>
        ensures exact { MatchOption result (IsUnripe self.now.parts) (λ r. IsRipe self.now.parts r.0 r.1) }
        ensures fit { IfSome result (λ r. fits r.0 r.1 self.now.parts ≡ true) }
    {
        if self.parts.len() == 0 {
            return None;
        }
        for level in 0..self.level_at(0) + 1 {
            match self.oldest(level) {
                Some((start, stop)) => return Some(self.range_of(start, stop)),
                None => {}
            }
        }
        None
    }

    /// The segments that tile a range, the oldest first, if the range fits the index. No two of their postings have one term, record and place, and all have places in the range.
    pub fn take_fold(&self, range: (u64, u64)) -> Option<&[Segment]>
        ensures exact { MatchOption result (fits range.0 range.1 self.now.parts ≡ false) (λ segments. (fits range.0 range.1 self.now.parts ≡ true) × (map postings_of segments.now ≡ map (λ p. p.postings) (within range.0 range.1 self.now.parts))) }
        ensures apart { IfSome result (λ segments. IsDistinct has_same_place (all_of segments.now)) }
        ensures places { IfSome result (λ segments. All (λ p. (range.0 ≤ p.place) × (p.place < range.1)) (all_of segments.now)) }
    {
        let (from, to) = range;
        if from >= to {
            return None;
        }
        self.are_levels();
        match self.located(from, to) {
            Ok((start, stop)) => Some(self.between(start, stop)),
            Err(_) => None,
        }
    }

    /// The index with a chunk in place of the segments of a range. The chunk goes one level up where it replaces at least sixteen segments, all of one level and the oldest of it, and the level above has room; else it stands on the highest level of those that it replaces. Where the range does not fit, nothing is tried and the answer is `Stale`.
    pub fn swapped(
        &self,
        alloc: Global,
        range: (u64, u64),
        chunk: Chunk,
    ) -> Result<Index, Failure<Stale>>
        requires ordered { range.0 < range.1 }
        requires places { All (λ p. (range.0 ≤ p.place) × (p.place < range.1)) chunk }
        ensures ok { IfOk result (λ index. (fits range.0 range.1 self.now.parts ≡ true) × (index ≡ record { place = self.now.place; parts = swapped range.0 range.1 chunk self.now.parts })) }
        ensures err { IfErr result (IsFaultOf range.0 range.1 self.now.parts) }
    {
        let (from, to) = range;
        match self.located(from, to) {
            Ok((start, stop)) => {
                self.are_levels();
                let level = self.level_after(start, stop);
                let span = Span { level, from, to };
                Ok(self.replaced(alloc, start, stop, span, chunk)?)
            }
            Err(stale) => Err(Failure::Refused(stale)),
        }
    }

    // Where the segments of a range stand in the list.
    fn located(&self, from: u64, to: u64) -> Result<(usize, usize), Stale>
        requires { from < to }
        ensures { MatchResult result (λ r. IsLocated self.now.place from to self.now.parts r.0 r.1) (λ stale. (fits from to self.now.parts ≡ false) × (stale.missing ≡ missing from to self.now.parts)) }
    {
        match beginning(&self.parts, from) {
            None => Err(Stale { missing: from }),
            Some(start) => match ending(&self.parts, to) {
                None => Err(Stale { missing: to }),
                Some(stop) => Ok((start, stop)),
            },
        }
    }

    // The segments from one up to another.
    pub(crate) fn between(&self, start: usize, stop: usize) -> &[Segment]
        requires order { start ≤ stop }
        requires bound { stop ≤ length self.now.parts }
        ensures postings { map postings_of result.now ≡ map (λ p. p.postings) (take (stop - start) (drop start self.now.parts)) }
        ensures apart { IsDistinct has_same_place (all_of result.now) }
    {
        order_tells_apart();
        self.parts.between(start, stop)
    }

    // The index with a chunk in place of the segments from one up to another.
    pub(crate) fn replaced(
        &self,
        alloc: Global,
        start: usize,
        stop: usize,
        span: Span,
        chunk: Chunk,
    ) -> Result<Index, NoMemory>
        requires span { IsSpanFor self.now.place self.now.parts start stop span }
        requires places { All (λ p. (span.from ≤ p.place) × (p.place < span.to)) chunk }
        ensures { IfOk result (λ index. index ≡ record { place = self.now.place; parts = take start self.now.parts ++ part_of span (record { is_chunk = true; postings = chunk }) ∷ [] ++ drop stop self.now.parts }) }
    {
        chunk.is_in_order();
        let segment = Segment::Chunk(Arc::new(alloc, chunk)?);
        let parts = self.parts.replaced(alloc, start, stop, span, segment)?;
        Ok(Index {
            place: self.place,
            parts,
        })
    }

    // The level of a chunk that replaces those from one up to another.
    fn level_after(&self, start: usize, stop: usize) -> u32
        requires order { start < stop }
        requires bound { stop ≤ length self.now.parts }
        ensures { result ≡ level_after (take start self.now.parts) (take (stop - start) (drop start self.now.parts)) self.now.parts }
    {
        let level = self.level_at(start);
        if self.goes_up(start, stop, level) {
            level + 1
        } else {
            level
        }
    }

    // Whether a chunk that replaces those from one up to another goes up from a level.
    fn goes_up(&self, start: usize, stop: usize, level: u32) -> bool
        requires order { start < stop }
        requires bound { stop ≤ length self.now.parts }
        requires level { level < 16 }
        ensures { result ≡ goes_up_from level (take start self.now.parts) (take (stop - start) (drop start self.now.parts)) self.now.parts }
    {
        if stop - start < FOLDED_SEGMENTS || self.count(level + 1) >= MOST_SEGMENTS {
            return false;
        }
        self.are_oldest(start, stop, level)
    }

    // Whether those from one up to another are all of a level, and the oldest of it.
    fn are_oldest(&self, start: usize, stop: usize, level: u32) -> bool
        requires order { start < stop }
        requires bound { stop ≤ length self.now.parts }
        ensures { result ≡ (list_all (is_of_level level) (take (stop - start) (drop start self.now.parts)) && nat_eq (count_by (is_of_level level) (take start self.now.parts)) 0) }
    {
        if self.parts.count(start, stop, level) < stop - start {
            return false;
        }
        self.parts.count(0, start, level) == 0
    }

    // The level of a segment. No number of 64 bits is the end of a segment of level 16.
    pub(crate) fn level_at(&self, at: usize) -> u32
        requires { at < length self.now.parts }
        ensures exact { (d : Part) → result ≡ (slice_index_or self.now.parts at d).level }
        ensures bound { result < 16 }
    {
        self.parts.span(at).level
    }

    // How many segments are of a level.
    pub(crate) fn count(&self, level: u32) -> usize
        ensures { result ≡ count_by (is_of_level level) self.now.parts }
    {
        self.parts.count(0, self.parts.len(), level)
    }

    // Where the last range ends, or the index's own place.
    pub(crate) fn end(&self) -> u64
        ensures { result ≡ end_of self.now.place self.now.parts }
    {
        let len = self.parts.len();
        if len == 0 {
            self.place
        } else {
            self.parts.span(len - 1).to
        }
    }

    // Where the sixteen oldest segments of a level stand in the list, if there are as many.
    pub(crate) fn oldest(&self, level: u32) -> Option<(usize, usize)>
        ensures { MatchOption result (count_by (is_of_level level) self.now.parts < FOLDED_SEGMENTS) (λ r. IsOldest level self.now.parts r.0 r.1) }
    {
        let len = self.parts.len();
        if self.parts.count(0, len, level) < FOLDED_SEGMENTS {
            return None;
        }
        let start = self.parts.count_above(level);
        Some((start, start + FOLDED_SEGMENTS))
    }

    // The range of the segments from one up to another.
    pub(crate) fn range_of(&self, start: usize, stop: usize) -> (u64, u64)
        requires order { start < stop }
        requires bound { stop ≤ length self.now.parts }
        ensures from { result.0 ≡ end_of self.now.place (take start self.now.parts) }
        ensures to { result.1 ≡ end_of self.now.place (take stop self.now.parts) }
    {
        let first = self.parts.span(start);
        let last = self.parts.span(stop - 1);
        (first.from, last.to)
    }
}
