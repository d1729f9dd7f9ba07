// The reader of commands, over pieces of any size.
ghost use Rattle.std.specs.Prelude.{◌≡◌, ◌++◌, [], List, None, OnErr, OnOk, IfOk, IfSome, Bool, false, true, ℕ};
ghost use Rattle.gr_base.specs.Limits.{IsInRange};
ghost use Rattle.gr_cmdline.specs.Commands.{AreFirst, IsItem, commands};
ghost use Rattle.gr_cmdline.specs.Inside.Buffered.{HasNoLine, StandsFirst, buffered_in, first_outcome, behind_first_line};
ghost use Rattle.gr_cmdline.specs.Stream.{Gives};

use super::{Item, Next};
use crate::buffer::{Buffer, Line};
use crate::load::Load;
use crate::outcome::take_line;
use gr_base::{Limits, NoMemory};
use std::alloc::Global;
use std::marker::Model;

/// Reads commands from a stream that comes in pieces; the items are the same however it was cut.
#[derive(Drop)]
pub struct Reader {
    limit: u64,
    load: Option<Load>,
    buffer: Buffer,
}

impl Model for Reader {
    ghost use Rattle.gr_cmdline.specs.Stream.{Stream};

    ghost Value = { Stream };

    ghost view = { λ r. record { limit = r.limit; pending = r.load; bytes = r.buffer.bytes; ended = r.buffer.ended } };
}

impl Reader {
    /// A reader of a stream of which nothing has come; takes no memory. The items of a beginning of a stream are the
    /// first items of the whole.
    pub fn new(alloc: Global, limits: Limits) -> Reader
        requires { IsInRange limits }
        ensures made { result ≡ record { limit = limits.line; pending = None; bytes = []; ended = false } }
        ensures first { (bytes more : List ℕ) (ended : Bool) → AreFirst (commands limits.line bytes false) (commands limits.line (bytes ++ more) ended) }
    {
        Reader {
            limit: limits.line,
            load: None,
            buffer: Buffer::new(alloc),
        }
    }

    /// Appends a piece to the stream, which must not have ended.
    pub fn feed(&mut self, piece: &[u8]) -> Result<(), NoMemory>
        requires { self.old.ended ≡ false }
        ensures ok { OnOk result (self.new ≡ record { limit = self.old.limit; pending = self.old.pending; bytes = self.old.bytes ++ piece.now; ended = false }) }
        ensures err { OnErr result (self.new ≡ self.old) }
    {
        self.buffer.feed(piece)
    }

    /// The stream is whole.
    pub fn end(&mut self)
        ensures { self.new ≡ record { limit = self.old.limit; pending = self.old.pending; bytes = self.old.bytes; ended = true } }
    {
        self.buffer.end();
    }

    /// The next item, or why there is none.
    pub fn next_command(&mut self, alloc: Global) -> Next
        ensures { Gives self.old self.new result }
    {
        'lines: loop {
            let Some(line) = self.first_line() else {
                return self.last();
            };
            match self.take(alloc, line) {
                Ok(None) => {}
                Ok(Some(item)) => return Next::Item(item),
                Err(NoMemory) => return Next::NoMemory,
            }
        }
    }

    /// The first line of the bytes that are left, if it is whole.
    fn first_line(&mut self) -> Option<Line>
        ensures kept { self.new ≡ self.old }
        ensures whole { IfSome result (λ line. StandsFirst (buffered_in self.old) line.len line.past) }
        ensures none { result ≡ None → HasNoLine (buffered_in self.old) }
    {
        self.buffer.first_line()
    }

    /// Takes the first line; where no memory is found nothing is taken.
    fn take(&mut self, alloc: Global, line: Line) -> Result<Option<Item>, NoMemory>
        requires { StandsFirst (buffered_in self.old) line.len line.past }
        ensures ok { OnOk result (self.new ≡ behind_first_line self.old line.len line.past) }
        ensures item { IfOk result (λ item. item ≡ (first_outcome self.old line.len line.past).item) }
        ensures is_item { IfOk result (λ item. IfSome item IsItem) }
        ensures err { OnErr result (self.new ≡ self.old) }
    {
        let item = take_line(alloc, &mut self.load, self.limit, self.buffer.text(line))?;
        self.buffer.pass(line.past);
        Ok(item)
    }

    /// What is given where no line is left: a load that waits is unfinished where the stream has ended.
    fn last(&mut self) -> Next
        requires { HasNoLine (buffered_in self.old) }
        ensures { Gives self.old self.new result }
    {
        if !self.buffer.has_ended() {
            return Next::NeedMore;
        }
        match self.load.take() {
            Some(load) => Next::Item(load.into_item(false)),
            None => Next::End,
        }
    }
}
