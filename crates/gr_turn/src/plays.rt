// What each step on the table tells its seat.
ghost use Rattle.gr_turn.specs.Inside.Plays.{Drew, Looked, Raised, Called, Compared};
ghost use Rattle.gr_turn.specs.Inside.Views.{parted, apart, joined, spent};

use crate::held::Held;
use crate::view::View;
use atomic_table::{Join, Play, Split};

pub(crate) struct Draw;

impl<T, I, F> Play<Option<T>, View<I, F>> for Draw {
    ghost then = { Drew };
}

pub(crate) struct Look;

impl<T: Held> Play<Option<T>, View<T::Item, T::Fixed>> for Look {
    ghost then = { Looked T.entries T.fixed };
}

pub(crate) struct Raise;

impl<T: Held> Play<Option<T>, View<T::Item, T::Fixed>> for Raise {
    ghost then = { Raised T.entries };
}

pub(crate) struct Call;

impl<T, I, F> Play<Option<T>, View<I, F>> for Call {
    ghost then = { Called };
}

pub(crate) struct Compare;

impl<T, I, F> Play<Option<T>, View<I, F>> for Compare {
    ghost then = { Compared };
}

pub(crate) struct Part;

impl<I, F> Split<View<I, F>> for Part {
    ghost left = { parted };

    ghost right = { apart };
}

pub(crate) struct Merge<T> {
    marker: std::marker::PhantomData<T>,
}

impl<T: Held> Join<View<T::Item, T::Fixed>> for Merge<T> {
    ghost both = { joined };

    ghost spent = { spent T.spare };
}
