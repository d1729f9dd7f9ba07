// Writing replies to a sink, in large pieces.
ghost use Rattle.std.specs.Prelude.{◌≡◌, ◌+◌, ◌<◌, ◌≤◌, ◌-◌, ◌^◌, [], ◌++◌, length, OnOk, vec_capacity, vec_len};
ghost use Rattle.gr_runner.specs.Written.{Puts, Writes};
ghost use Rattle.gr_runner.specs.Run.{texts_of};
ghost use Rattle.std.specs.List.{flat_map};

use super::SessionLog;
use gr_outside::{Failed, Sink};
use gr_session::Done;
use std::alloc::Global;

// How many bytes are held before they are written, so that no piece is shorter where there is as much to write.
const PIECE: usize = 65_536;

// Writes the texts of sessions, in order. Where no memory is found to hold short ones, each is written by itself.
pub(crate) fn write_logs<K: Sink>(
    alloc: Global,
    sink: &mut K,
    logs: &[SessionLog],
) -> Result<(), Failed>
    requires { (K.taken sink.old).faults < 2 ^ 64 - 1 }
    ensures { Writes (K.taken sink.old) (K.taken sink.new) (texts_of logs.now) result }
{
    let mut held = nothing_held(alloc);
    for log in logs {
        put_done(sink, &mut held, log.done.as_slice())?;
    }
    write_held(sink, &mut held)
}

// Room for what is held, or none.
fn nothing_held(alloc: Global) -> Vec<u8>
    ensures { result.items ≡ [] }
{
    match Vec::with_capacity(alloc, PIECE) {
        Ok(held) => held,
        Err(_) => Vec::new(alloc),
    }
}

// Puts replies behind what is held.
fn put_done<K: Sink>(sink: &mut K, held: &mut Vec<u8>, done: &[Done]) -> Result<(), Failed>
    requires { (K.taken sink.old).faults < 2 ^ 64 - 1 }
    ensures { Puts (K.taken sink.old) (K.taken sink.new) held.old.items held.new.items (flat_map (λ reply. reply.text) done.now) result }
{
    for reply in done {
        put(sink, held, reply.text.as_slice())?;
    }
    Ok(())
}

// Puts a text behind what is held. As soon as the room for it is full it is written; what is left of a long text follows at once.
fn put<K: Sink>(sink: &mut K, held: &mut Vec<u8>, text: &[u8]) -> Result<(), Failed>
    requires { (K.taken sink.old).faults < 2 ^ 64 - 1 }
    ensures { Puts (K.taken sink.old) (K.taken sink.new) held.old.items held.new.items text.now result }
{
    let room = held.capacity() - held.len();
    if text.len() < room {
        hold(held, text);
        return Ok(());
    }
    let (first, rest) = text.split_at(room);
    hold(held, first);
    write_held(sink, held)?;
    if rest.len() < held.capacity() {
        hold(held, rest);
        return Ok(());
    }
    write_all(sink, rest)
}

// Holds a part for which there is room.
fn hold(held: &mut Vec<u8>, part: &[u8])
    requires { vec_len held.old + length part.now ≤ vec_capacity held.old }
    ensures { held.new.items ≡ held.old.items ++ part.now }
{
    match held.extend_from_slice(part) {
        Ok(()) => {}
        Err(_) => unreachable!(),
    }
}

// Writes what is held, and holds nothing any more.
fn write_held<K: Sink>(sink: &mut K, held: &mut Vec<u8>) -> Result<(), Failed>
    requires { (K.taken sink.old).faults < 2 ^ 64 - 1 }
    ensures writes { Writes (K.taken sink.old) (K.taken sink.new) held.old.items result }
    ensures nothing { OnOk result (held.new.items ≡ []) }
{
    write_all(sink, held.as_slice())?;
    held.clear();
    Ok(())
}

// Writes a text whole, in as many pieces as the sink wants.
fn write_all<K: Sink>(sink: &mut K, text: &[u8]) -> Result<(), Failed>
    requires { (K.taken sink.old).faults < 2 ^ 64 - 1 }
    ensures { Writes (K.taken sink.old) (K.taken sink.new) text.now result }
{
    let mut rest = text;
    while !rest.is_empty() {
        let taken = sink.write(rest)?;
        rest = &rest[taken..];
    }
    Ok(())
}
