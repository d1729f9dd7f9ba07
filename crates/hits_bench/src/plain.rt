// Plain loops over two lists of hits, one step at a time.
use gr_base::{MOST_SCORE, RecordId};
use std::alloc::{AllocError, Global};

/// The hits of both lists.
pub fn both(
    alloc: Global,
    left: &[(RecordId, u32)],
    right: &[(RecordId, u32)],
) -> Result<Vec<(RecordId, u32)>, AllocError> {
    let mut made = Vec::with_capacity(alloc, left.len().min(right.len()))?;
    let mut i = 0;
    let mut j = 0;
    'steps: while i < left.len() && j < right.len() {
        let (id, score) = left[i];
        let (other, more) = right[j];
        if id.0 < other.0 {
            i += 1;
        } else if other.0 < id.0 {
            j += 1;
        } else {
            made.push((id, score.saturating_add(more).min(MOST_SCORE)))?;
            i += 1;
            j += 1;
        }
    }
    Ok(made)
}

/// The hits of either list.
pub fn either(
    alloc: Global,
    left: &[(RecordId, u32)],
    right: &[(RecordId, u32)],
) -> Result<Vec<(RecordId, u32)>, AllocError> {
    let mut made = Vec::with_capacity(alloc, left.len().saturating_add(right.len()))?;
    let mut i = 0;
    let mut j = 0;
    'steps: while i < left.len() && j < right.len() {
        let (id, score) = left[i];
        let (other, more) = right[j];
        if id.0 < other.0 {
            made.push((id, score))?;
            i += 1;
        } else if other.0 < id.0 {
            made.push((other, more))?;
            j += 1;
        } else {
            made.push((id, score.saturating_add(more).min(MOST_SCORE)))?;
            i += 1;
            j += 1;
        }
    }
    made.extend_from_slice(&left[i..])?;
    made.extend_from_slice(&right[j..])?;
    Ok(made)
}

/// The hits of the left list alone.
pub fn without(
    alloc: Global,
    left: &[(RecordId, u32)],
    right: &[(RecordId, u32)],
) -> Result<Vec<(RecordId, u32)>, AllocError> {
    let mut made = Vec::with_capacity(alloc, left.len())?;
    let mut i = 0;
    let mut j = 0;
    'steps: while i < left.len() && j < right.len() {
        let (id, score) = left[i];
        let (other, _) = right[j];
        if id.0 < other.0 {
            made.push((id, score))?;
            i += 1;
        } else if other.0 < id.0 {
            j += 1;
        } else {
            i += 1;
            j += 1;
        }
    }
    made.extend_from_slice(&left[i..])?;
    Ok(made)
}
