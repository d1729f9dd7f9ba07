// The hash of a key's bytes.
ghost use Rattle.std.specs.Prelude.{◌≡◌};
ghost use Rattle.gr_hash_keys.specs.Hash.{key_hash, mixed, stepped};

/// The hash of a key: 64-bit FNV-1a over its bytes, and over the result the 64-bit finalizer of MurmurHash3. It is fixed, and the same in every run.
#[tactic(auto, unfolding(crate::specs::Hash::key_hash))]
pub(crate) fn key_hash(key: &[u8]) -> u64
    ensures { result ≡ key_hash key.now }
{
    let mut hash = 0xcbf2_9ce4_8422_2325;
    for byte in key {
        hash = stepped(hash, *byte);
    }
    mixed(hash)
}

/// One step of FNV-1a.
#[tactic(auto, unfolding(crate::specs::Hash::stepped))]
fn stepped(hash: u64, byte: u8) -> u64
    ensures { result ≡ stepped hash byte }
{
    (hash ^ byte as u64).wrapping_mul(0x100_0000_01b3)
}

/// The finalizer of MurmurHash3: each bit of the result depends on each bit of the number.
#[tactic(auto, unfolding(crate::specs::Hash::mixed))]
fn mixed(hash: u64) -> u64
    ensures { result ≡ mixed hash }
{
    let once = (hash ^ (hash >> 33)).wrapping_mul(0xff51_afd7_ed55_8ccd);
    let twice = (once ^ (once >> 33)).wrapping_mul(0xc4ce_b9fe_1a85_ec53);
    twice ^ (twice >> 33)
}
