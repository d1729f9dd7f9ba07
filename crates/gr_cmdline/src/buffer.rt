// The bytes of a stream that are not taken yet, and where the search for a line feed stands.
ghost use Rattle.std.specs.Prelude.{◌≡◌, ◌++◌, ◌≤◌, [], IfSome, None, OnErr, OnOk, drop, false, length, take, true};
ghost use Rattle.memchr.specs.Find.{IsFirstByte, is_byte};
ghost use Rattle.gr_cmdline.specs.Inside.Buffered.{HasNoLine, StandsFirst, first_text};

use crate::line::without_return;
use gr_base::NoMemory;
use memchr::memchr;
use std::alloc::Global;
use std::cmp::max;
use std::marker::Model;

/// How many bytes a line has, and how many with its end.
#[derive(Clone, Copy)]
pub(crate) struct Line {
    pub(crate) len: usize,
    pub(crate) past: usize,
}

/// The bytes that are left, and whether the stream has ended.
#[derive(Drop)]
pub(crate) struct Buffer {
    bytes: Vec<u8>,
    // The bytes before this place were taken.
    at: usize,
    // No line feed stands from `at` up to this place.
    searched: usize,
    ended: bool,
}

impl Model for Buffer {
    ghost use Rattle.std.specs.Prelude.{◌≤◌, ◌≡◌, ◌-◌, All, drop, length, take, false};
    ghost use Rattle.gr_cmdline.specs.Commands.{is_line_end};
    ghost use Rattle.gr_cmdline.specs.Inside.Buffered.{Buffered};

    ghost Value = { Buffered };

    ghost view = { λ r. record { bytes = drop r.at r.bytes.items; ended = r.ended } };

    ghost invariant = { λ r. (r.at ≤ r.searched) × (r.searched ≤ length r.bytes.items)
        × All (λ c. is_line_end c ≡ false) (take (r.searched - r.at) (drop r.at r.bytes.items)) };
}

impl Buffer {
    /// No byte; takes no memory.
    pub(crate) fn new(alloc: Global) -> Buffer
        ensures { result ≡ record { bytes = []; ended = false } }
    {
        Buffer {
            bytes: Vec::new(alloc),
            at: 0,
            searched: 0,
            ended: false,
        }
    }

    /// Appends a piece.
    pub(crate) fn feed(&mut self, piece: &[u8]) -> Result<(), NoMemory>
        ensures ok { OnOk result (self.new ≡ record { bytes = self.old.bytes ++ piece.now; ended = self.old.ended }) }
        ensures err { OnErr result (self.new ≡ self.old) }
    {
        self.compact();
        self.bytes.extend_from_slice(piece)?;
        Ok(())
    }

    /// The stream is whole.
    pub(crate) fn end(&mut self)
        ensures { self.new ≡ record { bytes = self.old.bytes; ended = true } }
    {
        self.ended = true;
    }

    /// Whether the stream is whole.
    pub(crate) fn has_ended(&self) -> bool
        ensures { result ≡ self.now.ended }
    {
        self.ended
    }

    /// The first line of the bytes that are left, if it is whole.
    pub(crate) fn first_line(&mut self) -> Option<Line>
        ensures kept { self.new ≡ self.old }
        ensures whole { IfSome result (λ line. StandsFirst self.old line.len line.past) }
        ensures none { result ≡ None → HasNoLine self.old }
    {
        let left = self.left();
        match self.find_end() {
            Some(len) => Some(Line { len, past: len + 1 }),
            None if self.ended && left > 0 => Some(Line {
                len: left,
                past: left,
            }),
            None => None,
        }
    }

    /// The text of the first line, without its end.
    pub(crate) fn text(&self, line: Line) -> &[u8]
        requires { line.len ≤ length self.now.bytes }
        ensures { result.now ≡ first_text self.now.bytes line.len line.past }
    {
        let text = self.front(line.len);
        if line.len == line.past {
            text
        } else {
            without_return(text)
        }
    }

    /// Leaves out the first bytes.
    pub(crate) fn pass(&mut self, len: usize)
        requires { len ≤ length self.old.bytes }
        ensures { self.new ≡ record { bytes = drop len self.old.bytes; ended = self.old.ended } }
    {
        self.at += len;
        self.searched = max(self.searched, self.at);
    }

    /// How many bytes are left.
    fn left(&self) -> usize
        ensures { result ≡ length self.now.bytes }
    {
        self.bytes.len() - self.at
    }

    /// The place of the first line feed; looks at no byte twice.
    fn find_end(&mut self) -> Option<usize>
        ensures kept { self.new ≡ self.old }
        ensures place { IsFirstByte (is_byte 10) self.old.bytes result }
    {
        match memchr(b'\n', &self.bytes[self.searched..]) {
            Some(further) => {
                self.searched += further;
                Some(self.searched - self.at)
            }
            None => {
                self.searched = self.bytes.len();
                None
            }
        }
    }

    /// The first bytes that are left.
    fn front(&self, len: usize) -> &[u8]
        requires { len ≤ length self.now.bytes }
        ensures { result.now ≡ take len self.now.bytes }
    {
        &self.bytes[self.at..self.at + len]
    }

    /// Moves the bytes that are left to the front.
    fn compact(&mut self)
        ensures { self.new ≡ self.old }
    {
        if self.at == 0 {
            return;
        }
        let left = self.left();
        self.bytes.copy_within(self.at.., 0);
        self.bytes.truncate(left);
        self.searched -= self.at;
        self.at = 0;
    }
}
