// The steps of a seat at the table: it draws a number, waits until that is served, and calls the next one.
ghost use Rattle.std.specs.Prelude.{◌≡◌, ◌≢◌, ◌<◌, ◌%◌, ◌^◌, [], ◌∷◌, ◌++◌, None, Some, MatchOption, length};
ghost use Rattle.gr_turn.specs.declared.view.Stage.TheVariants.{Idle, Waits, Serves};
ghost use Rattle.gr_turn.specs.Known.{IsOneLonger, StartsWith};
ghost use Rattle.gr_turn.specs.Inside.Views.{waiting, serving, raised, idle};
ghost use Rattle.gr_turn.specs.Inside.Seats.{IsTable, IsAt, IsSameSeat};
ghost use Rattle.gr_turn.specs.Inside.Plays.{IsServed};

use crate::held::Held;
use crate::plays::{Call, Draw, Look, Raise};
use crate::rule::{LENGTH, Place, SERVED, SLOT, TICKET, Top};
use std::sync::Wait;

// The low half of a word, which is what parking compares.
fn low_half(word: u64) -> u32
    ensures { result ≡ word % 2 ^ 32 }
{
    (word % (1 << 32)) as u32
}

// Draws the next number, unless another thread was there first. The last number is never drawn: who finds it waits without end.
fn draw<T: Held, R: Wait>(rt: &R, top: &Top<T>, seat: &mut Place<T>) -> Option<u64>
    requires table { IsTable top.now.table_id × IsAt top.now.table_id seat.old }
    requires ready { (seat.old.me.0.stage ≡ Idle) × (0 < seat.old.me.0.shares) }
    ensures same { IsSameSeat seat.old seat.new }
    ensures drawn { MatchOption result (seat.new.me ≡ seat.old.me) (λ number. seat.new.me ≡ (waiting number seat.old.me.0, seat.old.me.1)) }
{
    let next = top.peek(TICKET);
    if next == u64::MAX {
        top.park(rt, TICKET, low_half(next));
        return None;
    }
    if top.compare_exchange::<Draw>(seat, TICKET, next, next + 1) == next {
        Some(next)
    } else {
        None
    }
}

// Draws a number.
pub(crate) fn enter<T: Held, R: Wait>(rt: &R, top: &Top<T>, seat: &mut Place<T>) -> u64
    requires table { IsTable top.now.table_id × IsAt top.now.table_id seat.old }
    requires ready { (seat.old.me.0.stage ≡ Idle) × (0 < seat.old.me.0.shares) }
    ensures same { IsSameSeat seat.old seat.new }
    ensures drawn { seat.new.me ≡ (waiting result seat.old.me.0, seat.old.me.1) }
{
    for _ in rt.forever() {
        if let Some(number) = draw(rt, top, seat) {
            return number;
        }
    }
    unreachable!()
}

// Waits until the seat's number is served. The slot is then out with the seat.
pub(crate) fn wait_for<T: Held, R: Wait>(rt: &R, top: &Top<T>, seat: &mut Place<T>, number: u64)
    requires table { IsTable top.now.table_id × IsAt top.now.table_id seat.old }
    requires waits { seat.old.me.0.stage ≡ Waits number }
    ensures same { IsSameSeat seat.old seat.new }
    ensures served { IsServed T.entries T.fixed number seat.old.me seat.new.me }
{
    for _ in rt.forever() {
        let served = top.load::<Look>(seat, SERVED);
        if served == number {
            return;
        }
        top.park(rt, SERVED, low_half(served));
    }
    unreachable!()
}

// Takes the value out of the slot.
pub(crate) fn empty<T: Held>(top: &Top<T>, seat: &mut Place<T>) -> T
    requires table { IsTable top.now.table_id × IsAt top.now.table_id seat.old }
    requires full { (value : T) × (seat.old.me.1 ≡ (0, Some value) ∷ []) }
    ensures same { IsSameSeat seat.old seat.new }
    ensures value { seat.old.me.1 ≡ (0, Some result) ∷ [] }
    ensures after { seat.new.me ≡ (seat.old.me.0, (0, None) ∷ []) }
{
    match top.exchange(seat, SLOT, None) {
        Some(value) => value,
        None => unreachable!(),
    }
}

// Raises the length of the list by the last entry of the value.
pub(crate) fn raise<T: Held>(top: &Top<T>, seat: &mut Place<T>, value: T) -> T
    requires table { IsTable top.now.table_id × IsAt top.now.table_id seat.old }
    requires serves { (number : _) × (seat.old.me.0.stage ≡ Serves number) }
    requires grown { IsOneLonger (T.entries value) seat.old.me.0.seen }
    requires short { length (T.entries value) < 2 ^ 64 }
    ensures same { IsSameSeat seat.old seat.new }
    ensures value { result ≡ value }
    ensures after { seat.new.me ≡ (raised (T.entries value) seat.old.me.0, seat.old.me.1) }
{
    let length = value.count();
    let full = Some(value);
    top.compare_exchange_with::<Raise>(seat, LENGTH, length - 1, length, &full);
    match full {
        Some(value) => value,
        None => unreachable!(),
    }
}

// Puts the value into the slot, and calls the next number.
pub(crate) fn leave<T: Held>(top: &Top<T>, seat: &mut Place<T>, value: T)
    requires table { IsTable top.now.table_id × IsAt top.now.table_id seat.old }
    requires serves { (number : _) × (seat.old.me.0.stage ≡ Serves number) }
    requires shows { T.entries value ≡ seat.old.me.0.seen }
    requires keeps { (T.fixed value ≡ seat.old.me.0.fixed) × (0 < seat.old.me.0.shares) }
    requires emptied { seat.old.me.1 ≡ (0, None) ∷ [] }
    ensures same { IsSameSeat seat.old seat.new }
    ensures after { seat.new.me ≡ (idle seat.old.me.0, []) }
{
    match top.exchange(seat, SLOT, Some(value)) {
        None => {}
        Some(_) => unreachable!(),
    }
    let served = top.fetch_add::<Call>(seat, SERVED, 1);
    if top.peek(TICKET) != served.wrapping_add(1) {
        top.wake_all(SERVED);
    }
}
