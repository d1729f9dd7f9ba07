// A buffer more, and the folds that make room for it.
ghost use Rattle.std.specs.Prelude.{◌≡◌, ◌+◌, ◌<◌, ◌≤◌, false, IfOk, [], ◌∷◌, ◌++◌, length};
ghost use Rattle.std.specs.List.{All, count_by};
ghost use Rattle.gr_index.specs.Added.{Adds, FoldsOldest, HasRoom};
ghost use Rattle.gr_index.specs.Levels.{end_of, is_of_level};
ghost use Rattle.gr_index.specs.Inside.Room.{Folds, HasRoomAt};
ghost use Rattle.gr_index.specs.Inside.Located.{IsOldest};
ghost use Rattle.gr_index.specs.declared.limits.TheConstants.{FOLDED_SEGMENTS};

use crate::index::Index;
use crate::limits::MOST_SEGMENTS;
use crate::parts::Span;
use gr_base::NoMemory;
use gr_chunks::{Segment, fold};
use gr_postings::{Alive, Buffer};
use std::alloc::Global;
use std::sync::Arc;

impl Index {
    /// The index with the postings that an entry gave, as its newest segment. Where level 0 would hold more than it may, its sixteen oldest segments are first folded into one chunk of level 1, of what is alive in them, and so on upward.
    pub fn added<A: Alive>(
        &self,
        alloc: Global,
        buffer: Buffer,
        place: u64,
        alive: &A,
    ) -> Result<Index, NoMemory>
        requires some { 0 < length buffer }
        requires one_place { All (λ p. p.place ≡ place) buffer }
        requires later { end_of self.now.place self.now.parts ≤ place }
        requires last { place < u64.MAX }
        ensures { IfOk result (λ index. Adds (A.lives alive.now) self.now buffer place index) }
    {
        let roomy = self.with_room(alloc, 0, alive)?;
        roomy.pushed(alloc, buffer, place)
    }

    // The index with room in a level.
    fn with_room<A: Alive>(&self, alloc: Global, level: u32, alive: &A) -> Result<Index, NoMemory>
        ensures { IfOk result (λ roomy. HasRoomAt (A.lives alive.now) level self.now roomy) }
    {
        if self.count(level) < MOST_SEGMENTS {
            return self.try_clone(alloc);
        }
        self.are_levels();
        let next = self.level_above(level);
        let roomy = self.with_room(alloc, next, alive)?;
        roomy.folded(alloc, level, alive)
    }

    // The level above one that has segments.
    fn level_above(&self, level: u32) -> u32
        requires { 0 < count_by (is_of_level level) self.now.parts }
        ensures next { result ≡ level + 1 }
        ensures bound { level < 16 }
    {
        let at = self.parts.count_above(level);
        self.level_at(at) + 1
    }

    // The index with the sixteen oldest segments of a level folded into one of the level above.
    fn folded<A: Alive>(&self, alloc: Global, level: u32, alive: &A) -> Result<Index, NoMemory>
        requires level { level < 16 }
        requires enough { FOLDED_SEGMENTS ≤ count_by (is_of_level level) self.now.parts }
        requires room { count_by (is_of_level (level + 1)) self.now.parts < MOST_SEGMENTS }
        ensures { IfOk result (λ index. Folds (A.lives alive.now) level self.now index) }
    {
        match self.oldest(level) {
            None => unreachable!(),
            Some((start, stop)) => self.folded_at(alloc, level, start, stop, alive),
        }
    }

    // The same, where the sixteen stand in the list from one place up to another.
    fn folded_at<A: Alive>(
        &self,
        alloc: Global,
        level: u32,
        start: usize,
        stop: usize,
        alive: &A,
    ) -> Result<Index, NoMemory>
        requires level { level < 16 }
        requires oldest { IsOldest level self.now.parts start stop }
        requires room { count_by (is_of_level (level + 1)) self.now.parts < MOST_SEGMENTS }
        ensures { IfOk result (λ index. Folds (A.lives alive.now) level self.now index) }
    {
        self.are_levels();
        let chunk = fold(alloc, self.between(start, stop), alive)?;
        let (from, to) = self.range_of(start, stop);
        let span = Span {
            level: level + 1,
            from,
            to,
        };
        self.replaced(alloc, start, stop, span, chunk)
    }

    // The same index once more.
    fn try_clone(&self, alloc: Global) -> Result<Index, NoMemory>
        ensures { IfOk result (λ copy. copy ≡ self.now) }
    {
        Ok(Index {
            place: self.place,
            parts: self.parts.try_clone(alloc)?,
        })
    }

    // The index with a buffer more.
    fn pushed(self, alloc: Global, buffer: Buffer, place: u64) -> Result<Index, NoMemory>
        requires one_place { All (λ p. p.place ≡ place) buffer }
        requires room { count_by (is_of_level 0) self.parts < MOST_SEGMENTS }
        requires later { end_of self.place self.parts ≤ place }
        requires last { place < u64.MAX }
        ensures { IfOk result (λ index. index ≡ record { place = self.place; parts = self.parts ++ record { level = 0; from = end_of self.place self.parts; to = place + 1; is_chunk = false; postings = buffer } ∷ [] }) }
    {
        let _ = buffer.all();
        let from = self.end();
        let span = Span {
            level: 0,
            from,
            to: place + 1,
        };
        let segment = Segment::Buffer(Arc::new(alloc, buffer)?);
        Ok(Index {
            place: self.place,
            parts: self.parts.pushed(span, segment)?,
        })
    }
}
