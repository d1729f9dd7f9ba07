// The byte strings under which keys stand in a tree.
ghost use Rattle.std.specs.Prelude.{◌≡◌, IfOk};
ghost use Rattle.gr_table.specs.Inside.Bytes.{key_bytes};

use gr_base::{Bytes, NoMemory};
use gr_values::Key;
use std::alloc::Global;

/// A text's bytes, which are shared, or a number in 16 bytes, the most significant first. No two keys of one type have the same.
pub(crate) fn key_bytes(alloc: Global, key: &Key) -> Result<Bytes, NoMemory>
    ensures { IfOk result (λ made. made ≡ key_bytes key.now) }
{
    match key {
        Key::Number(number) => Bytes::from_slice(alloc, &number.to_be_bytes()),
        Key::Text(text) => text.try_clone(),
    }
}
