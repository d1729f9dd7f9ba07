// A turn and its passes.
ghost use Rattle.std.specs.Prelude.{◌≡◌, ◌<◌, ◌≤◌, ◌^◌, true, false, IfOk, length};
ghost use Rattle.gr_turn.specs.Known.{all_shares, first_pass, parted, newcomer, holding, resting, grown, joined, StartsWith, IsOneLonger, AreBelow, AreApart, HasEach, HasEachOnce};

use crate::held::Held;
use crate::plays::{Compare, Merge, Part};
use crate::rule::{LENGTH, Place, SLOT, TurnTable};
use crate::steps::{empty, enter, leave, raise, wait_for};
use atomic_table::Table;
use gr_base::NoMemory;
use std::alloc::Global;
use std::marker::Model;
use std::snapshot::Snapshot;
use std::sync::Wait;

/// One value that many threads take and give back, one at a time, in the order in which they asked for it.
/// Contracts see a turn as its identity.
#[derive(Drop)]
pub struct Turn<T: Held> {
    table: TurnTable<T>,
}

impl<T: Held> Model for Turn<T> {
    ghost use Rattle.gr_turn.specs.Known.{Identity};
    ghost use Rattle.gr_turn.specs.Inside.Seats.{IsTable};

    ghost Value = { Identity T.Fixed };

    ghost view = { λ turn. record { table = turn.table.shared.table_id; fixed = T.fixed turn.table.shared.key.value } };

    ghost invariant = { λ turn. IsTable turn.table.shared.table_id };
}

/// A thread's part in a turn: what it has seen of the list, and which entries it gave. It has no bytes.
/// A pass that is dropped takes its shares with it, so that its turn can then only be dropped too.
#[derive(Drop)]
pub struct Pass<T: Held> {
    seat: Place<T>,
}

impl<T: Held> Model for Pass<T> {
    ghost use Rattle.gr_turn.specs.Known.{Known};
    ghost use Rattle.gr_turn.specs.Inside.Passes.{IsPass, known_of};

    ghost Value = { Known T.Item T.Fixed };

    ghost view = { λ pass. known_of pass.seat.table_id pass.seat.me };

    ghost invariant = { λ pass. IsPass pass.seat.me };
}

impl<T: Held + Drop> Turn<T> {
    /// A turn with this value, and its first pass.
    pub fn new(alloc: Global, value: T) -> Result<(Turn<T>, Pass<T>), NoMemory>
        requires { length (T.entries value) < 2 ^ 64 }
        ensures turn { IfOk result (λ made. made.0.fixed ≡ T.fixed value) }
        ensures pass { IfOk result (λ made. made.1 ≡ first_pass made.0 (T.entries value)) }
    {
        let key = Snapshot::of(&value);
        let words = [value.count(), 0, 0];
        let mut slots = Vec::with_capacity(alloc, 1)?;
        slots.push_reserved(Some(value));
        match Table::new(alloc, &words, slots, &key) {
            Ok((table, seat)) => Ok((Turn { table }, Pass { seat })),
            Err(_) => Err(NoMemory),
        }
    }
}

impl<T: Held> Turn<T> {
    /// A second pass, for another thread; takes no memory.
    pub fn split(&self, pass: &mut Pass<T>) -> Pass<T>
        requires turn { pass.old.turn ≡ self.now }
        requires free { pass.old.holds ≡ false }
        requires two { 2 ≤ pass.old.shares }
        ensures old { pass.new ≡ parted pass.old }
        ensures new { result ≡ newcomer pass.old }
    {
        let seat = self.table.shared.split_seat::<Part>(&mut pass.seat);
        Pass { seat }
    }

    /// Takes the value, once each pass that asked before has given it back; does not return before.
    pub fn take<R: Wait>(&self, rt: &R, pass: &mut Pass<T>) -> T
        requires turn { pass.old.turn ≡ self.now }
        requires free { pass.old.holds ≡ false }
        ensures pass { pass.new ≡ holding (T.entries result) pass.old }
        ensures seen { StartsWith (T.entries result) pass.old.seen }
        ensures fixed { T.fixed result ≡ self.now.fixed }
        ensures short { length (T.entries result) < 2 ^ 64 }
        ensures own { AreBelow pass.old.own (length pass.old.seen) }
    {
        let top = &self.table.shared;
        let number = enter(rt, top, &mut pass.seat);
        wait_for(rt, top, &mut pass.seat, number);
        empty(top, &mut pass.seat)
    }

    /// Gives back a value with the list as it was taken, and calls the next thread.
    pub fn give(&self, pass: &mut Pass<T>, value: T)
        requires turn { pass.old.turn ≡ self.now }
        requires holds { pass.old.holds ≡ true }
        requires same { T.entries value ≡ pass.old.seen }
        requires fixed { T.fixed value ≡ self.now.fixed }
        ensures { pass.new ≡ resting pass.old }
    {
        leave(&self.table.shared, &mut pass.seat, value);
    }

    /// Gives back a value with one entry more, whose place is then the pass's own, and calls the next thread.
    /// From the first step of this call on, the list has the entry.
    pub fn give_grown(&self, pass: &mut Pass<T>, value: T)
        requires turn { pass.old.turn ≡ self.now }
        requires holds { pass.old.holds ≡ true }
        requires one { IsOneLonger (T.entries value) pass.old.seen }
        requires short { length (T.entries value) < 2 ^ 64 }
        requires fixed { T.fixed value ≡ self.now.fixed }
        ensures { pass.new ≡ grown (T.entries value) pass.old }
    {
        let top = &self.table.shared;
        let value = raise(top, &mut pass.seat, value);
        leave(top, &mut pass.seat, value);
    }

    /// Puts one pass into another, with what it has seen, its own places and its shares.
    pub fn join(&self, into: &mut Pass<T>, other: Pass<T>)
        requires turn { (into.old.turn ≡ self.now) × (other.turn ≡ self.now) }
        requires free { (into.old.holds ≡ false) × (other.holds ≡ false) }
        ensures pass { into.new ≡ joined into.old other }
        ensures seen { StartsWith into.new.seen into.old.seen × StartsWith into.new.seen other.seen }
        ensures apart { AreApart into.old.own other.own }
    {
        let Pass { seat } = other;
        let top = &self.table.shared;
        top.join_seat::<Merge<T>>(&mut into.seat, seat);
        top.load::<Compare>(&mut into.seat, LENGTH);
    }

    /// Ends a turn that nobody else has a pass of, and gives its value.
    pub fn close(self, pass: Pass<T>) -> T
        requires turn { pass.turn ≡ self }
        requires free { pass.holds ≡ false }
        requires all { pass.shares ≡ all_shares }
        ensures list { T.entries result ≡ pass.seen }
        ensures fixed { T.fixed result ≡ self.fixed }
        ensures each { HasEach pass.own (length pass.seen) }
        ensures once { HasEachOnce pass.own (length pass.seen) }
    {
        let Turn { table } = self;
        let Pass { seat } = pass;
        let mut closed = table.close_with(seat);
        let slot = closed.take(SLOT);
        closed.free();
        match slot {
            Some(value) => value,
            None => unreachable!(),
        }
    }
}
