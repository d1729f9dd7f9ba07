// The numbers of the levels. They are this engine's own.

/// Segments of one level, at most, so that a walk over an index has a bounded number of segments to look into.
pub const MOST_SEGMENTS: usize = 64;

/// Segments that are folded into one of the level above, so that a segment of level l covers at least as many journal places as the power l of this.
pub const FOLDED_SEGMENTS: usize = 16;
