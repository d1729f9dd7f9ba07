// The table of a turn. Word 0 is the length of the list, word 1 the next ticket, word 2 the ticket that is served; the slot has the value.
use crate::held::Held;
use crate::view::View;
use atomic_table::{Seat, Shared, Table, TableRule};
use std::alloc::Global;
use std::marker::PhantomData;
use std::snapshot::Snapshot;

pub(crate) const LENGTH: usize = 0;

pub(crate) const TICKET: usize = 1;

pub(crate) const SERVED: usize = 2;

pub(crate) const SLOT: usize = 0;

// What is so between any two steps.
pub(crate) struct Rule<T> {
    marker: PhantomData<T>,
}

impl<T: Held> TableRule<Option<T>, View<T::Item, T::Fixed>, Snapshot<T>> for Rule<T> {
    ghost use Rattle.gr_turn.specs.Inside.Rule.{Kept};
    ghost use Rattle.gr_turn.specs.Inside.Views.{beginning};

    ghost holds = { λ key state. Kept T.entries T.fixed (T.fixed key.value) state.words state.homes state.views };

    ghost first = { λ key. beginning (T.entries key.value) (T.fixed key.value) };
}

pub(crate) type TurnTable<T> = Table<
    Option<T>,
    View<<T as Held>::Item, <T as Held>::Fixed>,
    Snapshot<T>,
    Rule<T>,
    Global,
>;

pub(crate) type Top<T> = Shared<
    Option<T>,
    View<<T as Held>::Item, <T as Held>::Fixed>,
    Snapshot<T>,
    Rule<T>,
>;

pub(crate) type Place<T> = Seat<Option<T>, View<<T as Held>::Item, <T as Held>::Fixed>>;
