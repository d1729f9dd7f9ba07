// What a turn keeps: a value that shows a list and a fixed part.
ghost use Rattle.std.specs.Prelude.{ℕ, ◌≡◌, ◌^◌, ◌<◌, List, length};
ghost use Rattle.std.specs.Arc.{arc_value};

use std::sync::Arc;

/// A value that shows a list of entries and a fixed part.
pub trait Held {
    /// An entry of the list.
    type Item;

    /// Plain data that stays as it is while the list grows.
    type Fixed;

    ghost entries: { Self → List Self.Item };

    ghost fixed: { Self → Self.Fixed };

    // Some fixed part, for what is left of a pass that was joined into another.
    ghost spare: { Self.Fixed };

    /// How many entries the list has.
    fn count(&self) -> u64
        requires { length (entries self.now) < 2 ^ 64 }
        ensures { result ≡ length (entries self.now) };
}

impl<T: Held> Held for Arc<T> {
    type Item = T::Item;

    type Fixed = T::Fixed;

    ghost entries = { λ shared. T.entries (arc_value shared) };

    ghost fixed = { λ shared. T.fixed (arc_value shared) };

    ghost spare = { T.spare };

    fn count(&self) -> u64 {
        let value: &T = self;
        value.count()
    }
}
