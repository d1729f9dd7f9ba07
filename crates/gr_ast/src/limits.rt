// How many arguments the calls of a script take, and how much a match column may weigh.

/// How many arguments a `between` has: the value, the low end and whether it is included, the high end and whether it is included.
pub const BETWEEN_ARGUMENTS: usize = 5;

/// How many arguments an `in_values` has at least: the value, and one that it may be.
pub const LEAST_IN_VALUES: usize = 2;

/// The least weight of a match column.
pub const LEAST_WEIGHT: u32 = 1;

/// The greatest weight of a match column. So a score that it multiplies fits many times into what a record may score.
pub const MOST_WEIGHT: u32 = 1000;
