// The segments of an index, each with its level and its range.
ghost use Rattle.std.specs.Prelude.{◌≡◌, ◌-◌, ◌<◌, ◌≤◌, nat_eq, nat_lt, IfOk, OnOk, [], ◌∷◌, ◌++◌, drop, length, map, take, slice_index_or};
ghost use Rattle.std.specs.List.{count_by};
ghost use Rattle.gr_chunks.specs.Segments.{postings_of};
ghost use Rattle.gr_index.specs.Levels.{Part, is_of_level};
ghost use Rattle.gr_index.specs.Inside.Parts.{held_of, is_above, part_of, span_of};

use crate::segments::{push_shared, replaced_segments};
use gr_base::NoMemory;
use gr_chunks::Segment;
use std::alloc::Global;
use std::marker::Model;

/// The level of a segment, and the journal places from one up to another that it covers.
#[derive(Clone, Copy, Drop)]
pub(crate) struct Span {
    pub(crate) level: u32,
    pub(crate) from: u64,
    pub(crate) to: u64,
}

/// Segments with their spans, the oldest first.
#[derive(Drop)]
pub(crate) struct Parts {
    spans: Vec<Span>,
    segments: Vec<Segment>,
}

impl Model for Parts {
    ghost use Rattle.std.specs.Prelude.{◌≡◌, List, length, map};
    ghost use Rattle.gr_index.specs.Levels.{Part};

    ghost Value = { List Part };

    ghost use Rattle.gr_index.specs.Inside.Parts.{held_of, parts_of};

    ghost view = { λ parts. parts_of parts.spans.items (map held_of parts.segments.items) };

    ghost invariant = { λ parts. length parts.spans.items ≡ length parts.segments.items };
}

impl Parts {
    /// No segments.
    pub(crate) fn new(alloc: Global) -> Parts
        ensures { result ≡ [] }
    {
        Parts {
            spans: Vec::new(alloc),
            segments: Vec::new(alloc),
        }
    }

    /// How many segments there are.
    pub(crate) fn len(&self) -> usize
        ensures { result ≡ length self.now }
    {
        self.spans.len()
    }

    /// The span of a segment.
    pub(crate) fn span(&self, at: usize) -> Span
        requires { at < length self.now }
        ensures { (d : Part) → result ≡ span_of (slice_index_or self.now at d) }
    {
        self.spans[at]
    }

    /// All segments.
    pub(crate) fn segments(&self) -> &[Segment]
        ensures { map postings_of result.now ≡ map (λ p. p.postings) self.now }
    {
        self.segments.as_slice()
    }

    /// The segments from one up to another.
    pub(crate) fn between(&self, start: usize, end: usize) -> &[Segment]
        requires order { start ≤ end }
        requires bound { end ≤ length self.now }
        ensures { map postings_of result.now ≡ map (λ p. p.postings) (take (end - start) (drop start self.now)) }
    {
        between(self.segments.as_slice(), start, end)
    }

    /// How many segments from one up to another are of a level.
    pub(crate) fn count(&self, start: usize, end: usize, level: u32) -> usize
        requires order { start ≤ end }
        requires bound { end ≤ length self.now }
        ensures { result ≡ count_by (is_of_level level) (take (end - start) (drop start self.now)) }
    {
        count_of(between(self.spans.as_slice(), start, end), level)
    }

    /// How many segments are of a higher level.
    pub(crate) fn count_above(&self, level: u32) -> usize
        ensures { result ≡ count_by (is_above level) self.now }
    {
        count_above(self.spans.as_slice(), level)
    }

    /// The same segments once more.
    pub(crate) fn try_clone(&self, alloc: Global) -> Result<Parts, NoMemory>
        ensures { IfOk result (λ copy. copy ≡ self.now) }
    {
        let mut spans = Vec::new(alloc);
        let mut segments = Vec::new(alloc);
        push_spans(&mut spans, self.spans.as_slice())?;
        push_shared(&mut segments, self.segments.as_slice())?;
        Ok(Parts { spans, segments })
    }

    /// The segments and one more.
    pub(crate) fn pushed(self, span: Span, segment: Segment) -> Result<Parts, NoMemory>
        ensures { IfOk result (λ made. made ≡ self ++ part_of span (held_of segment) ∷ []) }
    {
        let mut spans = self.spans;
        let mut segments = self.segments;
        spans.push(span)?;
        segments.push(segment)?;
        Ok(Parts { spans, segments })
    }

    /// The segments with one in place of those from one up to another.
    pub(crate) fn replaced(
        &self,
        alloc: Global,
        start: usize,
        end: usize,
        span: Span,
        segment: Segment,
    ) -> Result<Parts, NoMemory>
        requires order { start ≤ end }
        requires bound { end ≤ length self.now }
        ensures { IfOk result (λ made. made ≡ take start self.now ++ part_of span (held_of segment) ∷ [] ++ drop end self.now) }
    {
        let spans = replaced_spans(alloc, self.spans.as_slice(), start, end, span)?;
        let segments = replaced_segments(alloc, self.segments.as_slice(), start, end, segment)?;
        Ok(Parts { spans, segments })
    }
}

// The spans with one in place of those from one up to another.
fn replaced_spans(
    alloc: Global,
    spans: &[Span],
    start: usize,
    end: usize,
    span: Span,
) -> Result<Vec<Span>, NoMemory>
    requires start { start ≤ length spans.now }
    requires end { end ≤ length spans.now }
    ensures { IfOk result (λ made. made.items ≡ take start spans.now ++ span ∷ [] ++ drop end spans.now) }
{
    let (front, _) = spans.split_at(start);
    let (_, back) = spans.split_at(end);
    let mut made = Vec::new(alloc);
    push_spans(&mut made, front)?;
    made.push(span)?;
    push_spans(&mut made, back)?;
    Ok(made)
}

// The elements from one up to another.
fn between<X>(items: &[X], start: usize, end: usize) -> &[X]
    requires order { start ≤ end }
    requires bound { end ≤ length items.now }
    ensures { result.now ≡ take (end - start) (drop start items.now) }
{
    let (_, rest) = items.split_at(start);
    let (front, _) = rest.split_at(end - start);
    front
}

// Appends the spans.
fn push_spans(spans: &mut Vec<Span>, others: &[Span]) -> Result<(), NoMemory>
    ensures { OnOk result (spans.new.items ≡ spans.old.items ++ others.now) }
{
    spans.reserve(others.len())?;
    for span in others {
        spans.push(*span)?;
    }
    Ok(())
}

// How many spans are of a level.
fn count_of(spans: &[Span], level: u32) -> usize
    ensures { result ≡ count_by (λ s. nat_eq s.level level) spans.now }
{
    spans.iter().filter(|span| span.level == level).count()
}

// How many spans are of a higher level.
fn count_above(spans: &[Span], level: u32) -> usize
    ensures { result ≡ count_by (λ s. nat_lt level s.level) spans.now }
{
    spans.iter().filter(|span| level < span.level).count()
}
