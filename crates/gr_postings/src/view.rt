// Postings that are lent, wherever they stand.
ghost use Rattle.std.specs.Prelude.{◌≡◌, OnOk, length};
ghost use Rattle.std.specs.Iterator.{YieldsFirst, item_count};
ghost use Rattle.gr_postings.specs.Positions.{AreValid, IsRising};
ghost use Rattle.gr_postings.specs.Numbers.{AppendsPositions, after_positions, positions_at};

use super::numbers::{push_number, read_number, skip_numbers};
use gr_base::{NoMemory, RecordId};
use std::marker::Model;

/// A posting that is lent.
#[derive(Drop)]
pub struct PostingView<'a> {
    /// The term.
    pub term: RecordId,
    /// The record that has it.
    pub id: RecordId,
    /// The journal place of the entry that gave the posting.
    pub place: u64,
    /// Where the term stands in the record.
    pub positions: PositionsView<'a>,
}

/// Positions that are lent, those that are still to come. They rise.
#[derive(Drop)]
pub struct PositionsView<'a> {
    form: Form<'a>,
}

/// Where the positions are read.
#[derive(Drop)]
enum Form<'a> {
    /// In a slice.
    Plain(&'a [u64]),
    /// In bytes.
    Coded(Coded<'a>),
}

/// Positions that stand in bytes, by their differences.
#[derive(Drop)]
struct Coded<'a> {
    /// The bytes, from the next position on.
    bytes: &'a [u8],
    /// How many are left.
    left: u64,
    /// The one that was read last, or 0.
    last: u64,
}

impl<'a> Model for PositionsView<'a> {
    ghost use Rattle.std.specs.Prelude.{List, ℕ};
    ghost use Rattle.gr_postings.specs.Inside.Kept.{positions_left};
    ghost use Rattle.gr_postings.specs.Positions.{AreValid};

    ghost Value = { List ℕ };

    ghost view = { λ positions. positions_left positions.form };

    ghost invariant = { λ positions. AreValid (positions_left positions.form) };
}

impl<'a> PositionsView<'a> {
    /// The positions of a slice, which must rise.
    pub(crate) fn plain(positions: &'a [u64]) -> PositionsView<'a>
        requires { IsRising positions.now }
        ensures { result ≡ positions.now }
    {
        let form = Form::Plain(positions);
        PositionsView { form }
    }

    /// The positions at the front of bytes, and the bytes after them.
    #[inline]
    pub fn read(bytes: &'a [u8]) -> (PositionsView<'a>, &'a [u8])
        requires { AreValid (positions_at bytes.now) }
        ensures positions { result.0 ≡ positions_at bytes.now }
        ensures rest { result.1.now ≡ after_positions bytes.now }
    {
        let (count, rest) = read_number(bytes);
        let coded = Coded {
            bytes: rest,
            left: count,
            last: 0,
        };
        let form = Form::Coded(coded);
        (PositionsView { form }, skip_numbers(rest, count))
    }

    /// The same positions once more.
    pub fn again(&self) -> PositionsView<'a>
        ensures { result ≡ self.now }
    {
        let form = match &self.form {
            Form::Plain(positions) => Form::Plain(positions),
            Form::Coded(coded) => Form::Coded(Coded {
                bytes: coded.bytes,
                left: coded.left,
                last: coded.last,
            }),
        };
        PositionsView { form }
    }

    /// How many positions are still to come.
    pub fn len(&self) -> u64
        ensures exact { result ≡ length self.now }
        ensures valid { AreValid self.now }
    {
        match &self.form {
            Form::Plain(positions) => positions.len() as u64,
            Form::Coded(coded) => coded.left,
        }
    }
}

impl<'a> Iterator for PositionsView<'a> {
    type Item = u64;

    ghost next_gives = { YieldsFirst (λ positions. positions) };

    ghost remaining = { item_count (λ positions. positions) };

    #[inline]
    fn next(&mut self) -> Option<u64> {
        match &mut self.form {
            Form::Plain(positions) => {
                let (first, rest) = positions.split_first()?;
                *positions = rest;
                Some(*first)
            }
            Form::Coded(coded) => coded.next(),
        }
    }
}

impl<'a> Coded<'a> {
    ghost use Rattle.gr_postings.specs.Inside.Kept.{positions_coded};
    ghost use Rattle.gr_postings.specs.Inside.Next.{NextCoded};

    // The next position, and `None` at the end.
    #[inline]
    fn next(&mut self) -> Option<u64>
        requires { AreValid (positions_coded self.old) }
        ensures { NextCoded self.old result self.new }
    {
        if self.left == 0 {
            return None;
        }
        let (difference, rest) = read_number(self.bytes);
        self.bytes = rest;
        self.left -= 1;
        self.last += difference;
        Some(self.last)
    }
}

/// Appends the bytes of positions, by which `PositionsView::read` reads them: their count, and the difference of each from the one before.
pub fn push_positions(bytes: &mut Vec<u8>, positions: PositionsView<'_>) -> Result<(), NoMemory>
    ensures { OnOk result (AppendsPositions bytes.old.items bytes.new.items positions.entry) }
{
    push_number(bytes, positions.len())?;
    let mut positions = positions;
    let mut last = 0;
    while let Some(position) = positions.next() {
        push_number(bytes, position - last)?;
        last = position;
    }
    Ok(())
}
