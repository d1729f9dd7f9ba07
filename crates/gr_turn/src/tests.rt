// What no clause says: that each call succeeds, and that threads that wait are woken.
ghost use Rattle.std.specs.Prelude.{◌≡◌, ◌<◌, ◌+◌, false};
ghost use Rattle.std.specs.Thread.{IsSync};

use crate::{Held, Pass, Turn};
use std::alloc::Global;
use std::sync::{Arc, Wait};
use std::test::Fail;
use std::thread::{Threads, join};

// How often each of four threads lengthens the list.
const ROUNDS: u64 = 10_000;

// A list of numbers, and a number that stays.
#[derive(Drop)]
struct Row {
    items: Vec<u64>,
    name: u8,
}

impl Held for Row {
    ghost use Rattle.std.specs.Prelude.{ℕ};

    type Item = u64;

    type Fixed = u8;

    ghost entries = { λ row. row.items.items };

    ghost fixed = { λ row. row.name };

    ghost spare = { 0 };

    fn count(&self) -> u64 {
        self.items.len() as u64
    }
}

// Puts one number more at the end of a turn's list, where memory is found.
fn lengthen<R: Wait>(rt: &R, turn: &Turn<Row>, pass: &mut Pass<Row>, number: u64)
    requires { (pass.old.turn ≡ turn.now) × (pass.old.holds ≡ false) }
    ensures { (pass.new.turn ≡ pass.old.turn) × (pass.new.holds ≡ false) × (pass.new.shares ≡ pass.old.shares) }
{
    let mut row = turn.take(rt, pass);
    match row.items.push(number) {
        Ok(()) => turn.give_grown(pass, row),
        Err(_) => turn.give(pass, row),
    }
}

// What one of the threads does.
fn lengthen_often<R: Wait>(rt: &R, turn: &Turn<Row>, mut pass: Pass<Row>, thread: u64) -> Pass<Row>
    requires { (pass.turn ≡ turn.now) × (pass.holds ≡ false) × (thread < 4) }
    ensures { (result.turn ≡ pass.turn) × (result.holds ≡ false) × (result.shares ≡ pass.shares) }
{
    for round in 0..ROUNDS {
        lengthen(rt, turn, &mut pass, thread * ROUNDS + round);
    }
    pass
}

// Two threads lengthen the list, and their passes are joined.
fn lengthen_side_by_side<R: Threads + Wait + Sync>(
    rt: &R,
    turn: &Turn<Row>,
    first: Pass<Row>,
    second: Pass<Row>,
    thread: u64,
) -> Pass<Row>
    requires first { (first.turn ≡ turn.now) × (first.holds ≡ false) }
    requires second { (second.turn ≡ turn.now) × (second.holds ≡ false) }
    requires thread { thread < 3 }
    ensures { (result.turn ≡ turn.now) × (result.holds ≡ false) × (result.shares ≡ first.shares + second.shares) }
{
    let (mut joined, other) = join(
        rt,
        move || -> Pass<Row>
            requires { (first.turn ≡ turn.now) × (first.holds ≡ false) × (thread < 4) × IsSync R.row }
            ensures { (result.turn ≡ first.turn) × (result.holds ≡ false) × (result.shares ≡ first.shares) }
        { lengthen_often(rt, turn, first, thread) },
        move || -> Pass<Row>
            requires { (second.turn ≡ turn.now) × (second.holds ≡ false) × (thread < 3) × IsSync R.row }
            ensures { (result.turn ≡ second.turn) × (result.holds ≡ false) × (result.shares ≡ second.shares) }
        { lengthen_often(rt, turn, second, thread + 1) },
    );
    turn.join(&mut joined, other);
    joined
}

fn row_of(alloc: Global, numbers: &[u64]) -> Result<Row, Fail> {
    let mut items = Vec::new(alloc);
    items.extend_from_slice(numbers)?;
    Ok(Row { items, name: 7 })
}

#[test]
fn a_turn_that_nobody_took_closes(rt: HostRuntime) -> Result<(), Fail> {
    let (turn, pass) = Turn::new(rt.alloc(), row_of(rt.alloc(), &[5, 6])?)?;
    let row = turn.close(pass);
    assert_eq!(rt; (row.items.as_slice(), row.name), ([5, 6].as_slice(), 7));
    Ok(())
}

#[test]
fn a_value_given_back_is_taken_again(rt: HostRuntime) -> Result<(), Fail> {
    let shared = Arc::new(rt.alloc(), row_of(rt.alloc(), &[5])?)?;
    let (turn, mut pass) = Turn::new(rt.alloc(), shared)?;
    let row = turn.take(&rt, &mut pass);
    turn.give(&mut pass, row);
    let row = turn.take(&rt, &mut pass);
    assert_eq!(rt; (row.count(), row.name), (1, 7));
    turn.give(&mut pass, row);
    Ok(())
}

#[test]
fn what_one_pass_gave_another_takes(rt: HostRuntime) -> Result<(), Fail> {
    let (turn, mut first) = Turn::new(rt.alloc(), row_of(rt.alloc(), &[])?)?;
    let mut second = turn.split(&mut first);
    lengthen(&rt, &turn, &mut first, 1);
    lengthen(&rt, &turn, &mut second, 2);
    turn.join(&mut first, second);
    let row = turn.close(first);
    assert_eq!(rt; row.items.as_slice(), [1, 2].as_slice());
    Ok(())
}

#[test]
fn four_threads_lengthen_one_list(rt: HostRuntime) -> Result<(), Fail> {
    let (turn, mut first) = Turn::new(rt.alloc(), row_of(rt.alloc(), &[])?)?;
    let third = turn.split(&mut first);
    let fourth = turn.split(&mut first);
    let second = turn.split(&mut first);
    let (mut first, third) = join(
        &rt,
        || lengthen_side_by_side(&rt, &turn, first, second, 0),
        || lengthen_side_by_side(&rt, &turn, third, fourth, 2),
    );
    turn.join(&mut first, third);
    let mut row = turn.close(first);
    row.items.sort()?;
    for (place, number) in row.items.iter().enumerate() {
        assert_eq!(rt; *number, place as u64, "at {place}");
    }
    assert_eq!(rt; row.items.len(), 4 * ROUNDS as usize);
    Ok(())
}
