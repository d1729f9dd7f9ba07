// Keys as an attacker would choose them: 16 MB of each kind, on a stack of 256 KB.
use super::PatKeys;
use gr_base::{Bytes, NoMemory, RecordId};
use gr_hash_keys::HashKeys;
use gr_key_tree::GrowingKeys;
use std::alloc::Global;
use std::test::Fail;
use std::thread::Builder;

// How many keys, and how long each is.
const KEYS: u32 = 4096;

const LENGTH: usize = 4096;

// Blocks that lead FNV-1a from one state to one other: from its first state, each row stands behind those above it.
const BLOCKS: usize = 12;

const ONE: [[u8; 14]; BLOCKS] = [
    [27, 17, 250, 16, 60, 42, 8, 27, 84, 110, 240, 13, 97, 108],
    [195, 93, 82, 14, 53, 100, 22, 97, 145, 59, 246, 38, 38, 93],
    [154, 229, 87, 13, 36, 51, 7, 11, 50, 82, 14, 199, 245, 93],
    [202, 122, 26, 55, 13, 240, 113, 79, 13, 11, 76, 62, 12, 117],
    [217, 88, 113, 0, 129, 222, 30, 28, 180, 82, 57, 240, 20, 237],
    [244, 19, 94, 62, 159, 37, 193, 125, 231, 5, 138, 185, 12, 66],
    [32, 91, 9, 60, 42, 171, 217, 140, 20, 78, 47, 64, 32, 20],
    [208, 85, 125, 93, 17, 101, 117, 105, 72, 47, 180, 18, 56, 97],
    [201, 56, 154, 4, 61, 1, 141, 22, 173, 77, 227, 203, 12, 90],
    [
        155, 196, 203, 114, 95, 109, 111, 125, 240, 26, 115, 16, 117, 116,
    ],
    [19, 123, 55, 28, 68, 134, 224, 107, 6, 110, 63, 46, 51, 254],
    [
        94, 22, 121, 111, 67, 95, 175, 118, 197, 74, 126, 186, 116, 232,
    ],
];

const OTHER: [[u8; 14]; BLOCKS] = [
    [25, 18, 35, 252, 17, 62, 4, 111, 86, 79, 171, 47, 99, 111],
    [193, 172, 89, 30, 40, 168, 46, 37, 153, 56, 169, 82, 38, 90],
    [152, 36, 76, 1, 43, 49, 49, 31, 44, 81, 55, 89, 23, 88],
    [196, 47, 5, 7, 242, 236, 63, 51, 45, 8, 67, 90, 12, 114],
    [223, 73, 46, 28, 142, 230, 26, 22, 182, 91, 204, 88, 12, 232],
    [234, 52, 215, 14, 176, 35, 95, 117, 219, 0, 131, 163, 12, 93],
    [38, 212, 52, 96, 13, 189, 75, 122, 26, 79, 102, 248, 96, 17],
    [
        210, 52, 162, 65, 100, 127, 43, 125, 78, 46, 209, 10, 24, 124,
    ],
    [203, 15, 155, 48, 90, 3, 135, 48, 173, 66, 170, 69, 12, 89],
    [
        149, 79, 66, 218, 246, 119, 165, 97, 234, 35, 170, 120, 23, 119,
    ],
    [17, 54, 120, 16, 217, 138, 44, 119, 0, 79, 230, 14, 21, 253],
    [
        88, 19, 178, 63, 242, 117, 213, 116, 185, 51, 69, 158, 84, 239,
    ],
];

// The stack of the thread that holds the keys.
const STACK: usize = 262_144;

// What an attacker chooses.
#[derive(Clone, Copy)]
enum Attack {
    // All keys have one hash.
    EqualHashes,
    // Each key parts from the others at a byte of its own.
    LateParting,
}

fn key_of(alloc: Global, attack: Attack, number: u32) -> Result<Bytes, NoMemory> {
    let mut key = Vec::with_capacity(alloc, LENGTH)?;
    match attack {
        Attack::EqualHashes => push_blocks(&mut key, number)?,
        Attack::LateParting => push_zeros(&mut key, number)?,
    }
    key.resize(LENGTH, 0)?;
    Bytes::from_vec(alloc, key)
}

// Blocks by the bits of the number.
fn push_blocks(key: &mut Vec<u8>, number: u32) -> Result<(), NoMemory> {
    for row in 0..BLOCKS {
        let block = if (number >> row) & 1 == 0 {
            &ONE[row]
        } else {
            &OTHER[row]
        };
        key.extend_from_slice(block)?;
    }
    Ok(())
}

// As many zeros as the number says, and then a one.
fn push_zeros(key: &mut Vec<u8>, number: u32) -> Result<(), NoMemory> {
    key.resize(number as usize, 0)?;
    key.push(1)?;
    Ok(())
}

// Whether each key, added to the table, is found with its id.
fn holds<K: GrowingKeys + Drop>(alloc: Global, empty: K, attack: Attack) -> Result<bool, NoMemory> {
    let mut table = empty;
    for number in 0..KEYS {
        let key = key_of(alloc, attack, number)?;
        table.find_or_add(alloc, &key, RecordId(number + 1))?;
    }
    for number in 0..KEYS {
        let key = key_of(alloc, attack, number)?;
        if table.find(key.as_slice()) != Some(RecordId(number + 1)) {
            return Ok(false);
        }
    }
    Ok(true)
}

fn hash_keys_hold(alloc: Global) -> bool {
    matches!(holds(alloc, HashKeys::new(), Attack::EqualHashes), Ok(true))
}

fn pat_keys_hold(alloc: Global) -> bool {
    matches!(holds(alloc, PatKeys::new(), Attack::LateParting), Ok(true))
}

#[test]
fn keys_of_equal_hash_fit_a_small_stack(rt: HostRuntime) -> Result<(), Fail> {
    let alloc = rt.alloc();
    let thread = Builder::new().stack_size(STACK);
    let handle = thread.spawn(&rt, move || hash_keys_hold(alloc))?;
    assert!(rt; handle.join(&rt));
    Ok(())
}

#[test]
fn keys_that_part_late_fit_a_small_stack(rt: HostRuntime) -> Result<(), Fail> {
    let alloc = rt.alloc();
    let thread = Builder::new().stack_size(STACK);
    let handle = thread.spawn(&rt, move || pat_keys_hold(alloc))?;
    assert!(rt; handle.join(&rt));
    Ok(())
}
