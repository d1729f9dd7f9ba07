// The texts that are measured.
use std::alloc::{AllocError, Global};

/// The letter a, so many times.
pub fn one_letter(alloc: Global, size: usize) -> Result<Vec<u8>, AllocError> {
    let mut letters = Vec::new(alloc);
    for _ in 0..size {
        letters.push(b'a')?;
    }
    Ok(letters)
}

/// The first letters of the Fibonacci word: from ab on, each a is followed by ab, and each b by a.
pub fn fibonacci(alloc: Global, size: usize) -> Result<Vec<u8>, AllocError> {
    let mut letters = Vec::new(alloc);
    letters.push(b'a')?;
    letters.push(b'b')?;
    for i in 1..size {
        let is_a = match letters.get(i) {
            Some(letter) => *letter == b'a',
            None => false,
        };
        if letters.len() < size {
            letters.push(b'a')?;
            if is_a {
                letters.push(b'b')?;
            }
        }
    }
    Ok(letters)
}

/// Letters of a register of 24 bits with feedback, in which no 24 letters come twice.
pub fn de_bruijn(alloc: Global, size: usize) -> Result<Vec<u8>, AllocError> {
    let mut letters = Vec::new(alloc);
    let mut register = 1u32;
    for _ in 0..size {
        letters.push(if register & 1 == 0 { b'a' } else { b'b' })?;
        let bit = (register ^ (register >> 1) ^ (register >> 2) ^ (register >> 7)) & 1;
        register = (register >> 1) | (bit << 23);
    }
    Ok(letters)
}

const WORDS: [&str; 16] = [
    "the",
    "of",
    "and",
    "to",
    "in",
    "a",
    "is",
    "that",
    "search",
    "engine",
    "column",
    "record",
    "index",
    "phrase",
    "journal",
    "reference",
];

/// Words of a small language by chance.
pub fn prose(alloc: Global, size: usize) -> Result<Vec<u8>, AllocError> {
    let mut text = Vec::new(alloc);
    let mut seed = 1u64;
    for _ in 0..size {
        if text.len() < size {
            seed = seed
                .wrapping_mul(6_364_136_223_846_793_005)
                .wrapping_add(1_442_695_040_888_963_407);
            if let Some(word) = WORDS.get((seed >> 33) as usize % 16) {
                text.extend_from_slice(word.as_bytes())?;
                text.push(b' ')?;
            }
        }
    }
    Ok(text)
}

/// A space after each letter.
pub fn spaced(alloc: Global, letters: &[u8]) -> Result<Vec<u8>, AllocError> {
    let mut text = Vec::new(alloc);
    for letter in letters {
        text.push(*letter)?;
        text.push(b' ')?;
    }
    Ok(text)
}
