// The order of texts, in which the keys that begin with a prefix follow one another.
ghost use Rattle.std.specs.Prelude.{◌≡◌};
ghost use Rattle.std.specs.Cmp.Lexicographic.{slice_cmp};
ghost use Rattle.std.specs.Ordering.{is_gt, nat_cmp};

use gr_key_tree::KeyOrder;
use std::cmp::Ordering;

/// Keys by their text.
#[derive(Drop)]
pub struct TextOrder;

impl KeyOrder for TextOrder {
    ghost state_of = { λ key. 0 };

    fn state(_key: &[u8]) -> u64 {
        0
    }

    fn none_before(prefix: &[u8], cut: &[u8]) -> bool {
        !is_after(cut, prefix)
    }

    fn none_from(prefix: &[u8], cut: &[u8]) -> bool {
        is_after(cut, prefix) && !cut.starts_with(prefix)
    }
}

/// Whether a text comes after another one.
fn is_after(left: &[u8], right: &[u8]) -> bool
    ensures { result ≡ is_gt (slice_cmp nat_cmp left.now right.now) }
{
    match left.cmp(right) {
        Ordering::Greater => true,
        _ => false,
    }
}
