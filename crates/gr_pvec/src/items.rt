// The elements of a range in order. The leaf in hand is kept, and the next one is looked up where it ends.
ghost use Rattle.std.specs.Prelude.{◌≡◌, ◌≤◌, length, slice_range};
ghost use Rattle.std.specs.Iterator.{YieldsFirstRef, item_count};

use super::vector::PVec;
use std::marker::Model;
use std::sync::Arc;

/// The elements of a range that are still to come.
#[derive(Drop)]
pub struct Items<'a, T> {
    vector: &'a PVec<T>,
    run: &'a [Arc<T>],
    next: u64,
    to: u64,
}

impl<'a, T> Model for Items<'a, T> {
    ghost use Rattle.std.specs.Prelude.{List, map, ◌++◌, ◌≤◌, length, slice_range};
    ghost use Rattle.std.specs.Coded.{coded_list};
    ghost use Rattle.std.specs.Arc.{arc_value};

    ghost Value = { List T };

    ghost coded = { coded_list T.code };

    ghost view = { λ items. map arc_value items.run.now ++ slice_range items.vector.now items.next items.to };

    ghost invariant = { λ items. (items.next ≤ items.to) × (items.to ≤ length items.vector.now) };
}

impl<'a, T> Items<'a, T> {
    /// The elements of `next..to`.
    pub(crate) fn over(vector: &'a PVec<T>, next: u64, to: u64) -> Items<'a, T>
        requires ordered { next ≤ to }
        requires within { to ≤ length vector.now }
        ensures { result ≡ slice_range vector.now next to }
    {
        Items {
            vector,
            run: &[],
            next,
            to,
        }
    }
}

impl<'a, T> Iterator for Items<'a, T> {
    type Item = &'a T;

    ghost next_gives = { YieldsFirstRef (λ items. items) };

    ghost remaining = { item_count (λ items. items) };

    fn next(&mut self) -> Option<&'a T> {
        if self.run.is_empty() && self.next < self.to {
            self.run = self.vector.run(self.next, self.to);
            self.next += self.run.len() as u64;
        }
        let (first, rest) = self.run.split_first()?;
        self.run = rest;
        Some(&**first)
    }
}
