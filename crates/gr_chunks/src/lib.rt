// Postings in coded bytes: chunks with a directory by term, their cursors, and folds of segments into one chunk.
#![tactic(auto)]

mod chunk;
mod coding;
mod cursor;
mod segment;
#[cfg(test)]
mod tests;

pub use chunk::{Chunk, chunk_of};
pub use cursor::Cursor;
pub use segment::{Segment, fold};
