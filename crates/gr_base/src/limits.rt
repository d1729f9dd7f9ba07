// The numbers of the rules, each once: how long and how many at most, and what holds where nothing is given.
// They are this engine's own, unless it says otherwise.

/// Bytes of a name of a table or a column, at most. It has at least one.
pub const LONGEST_NAME: usize = 255;

/// Bytes of a key, at most. It has at least one.
pub const LONGEST_KEY: usize = 4096;

/// Bytes of a text of the type `ShortText`, at most: as many as of a key, since only such texts are keys.
pub const LONGEST_SHORT_TEXT: usize = 4096;

/// Bytes of a text of the type `Text`, at most: 64 KiB.
pub const LONGEST_MIDDLE_TEXT: usize = 65_536;

/// Bytes of a text of the type `LongText`, at most: 16 MiB, half of the longest line.
pub const LONGEST_LONG_TEXT: usize = 16_777_216;

/// Elements of a vector, at most.
pub const LONGEST_VECTOR: usize = 65_536;

/// Bytes of a word of a text that is cut at spaces, at most. A longer one is dropped, since it could be no key of a lexicon.
pub const LONGEST_WORD: usize = 4096;

/// Levels that a query or a script nests, at most, so that no text makes a reader go deeper than that.
pub const MOST_LEVELS: u64 = 64;

/// Columns that one index column has as its sources, at most.
pub const MOST_SOURCES: usize = 64;

/// The highest score, at which scores stand still: the greatest number of the type `Int32`, in which scores are shown.
pub const MOST_SCORE: u32 = 2_147_483_647;

/// Rows that a select shows where it gives no limit. This is the default of `--limit` in the Groonga reference manual.
pub const SHOWN_ROWS: u32 = 10;

/// Ids given in one table, where no limit is given.
pub const DEFAULT_RECORDS: u32 = 1_048_576;

/// Ids given in one table, at most that may be asked for.
pub const MOST_RECORDS: u32 = 16_777_216;

/// Entries of the journal other than merges, where no limit is given.
pub const DEFAULT_JOURNAL_ENTRIES: u64 = 4_194_304;

/// Entries of the journal other than merges, at most that may be asked for.
pub const MOST_JOURNAL_ENTRIES: u64 = 67_108_864;

/// Bytes of one file, where no limit is given: 64 MiB.
pub const DEFAULT_SOURCE_BYTES: u64 = 67_108_864;

/// Bytes of one file, at most that may be asked for: 256 MiB.
pub const MOST_SOURCE_BYTES: u64 = 268_435_456;

/// Bytes of one line without its end, where no limit is given: 32 MiB.
pub const DEFAULT_LINE_BYTES: u64 = 33_554_432;

/// Bytes of one line without its end, at most that may be asked for: as many as where no limit is given.
pub const MOST_LINE_BYTES: u64 = 33_554_432;
