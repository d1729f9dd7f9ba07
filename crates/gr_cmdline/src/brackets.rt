// The brackets that are open in load data.
ghost use Rattle.std.specs.Prelude.{◌≡◌, ◌+◌, ◌<◌, ◌≤◌, ◌^◌, fold, length, take};
ghost use Rattle.gr_cmdline.specs.declared.brackets.Inside.TheVariants.{Data};
ghost use Rattle.gr_cmdline.specs.Inside.Brackets.{after_data, after_in_string, at_depth};

use crate::scan::{len_before_three, len_before_two};

/// Where the next byte of load data stands.
#[derive(Clone, Copy)]
pub(crate) enum Inside {
    /// Outside strings.
    Data,
    /// In a string.
    InString,
    /// In a string, behind a backslash.
    Backslash,
    /// Behind the bracket that closed the first.
    Closed,
}

/// How many brackets are open, and where the next byte stands.
#[derive(Clone, Copy)]
pub(crate) struct Brackets {
    pub(crate) depth: u64,
    pub(crate) inside: Inside,
}

impl Brackets {
    ghost use Rattle.gr_cmdline.specs.Inside.Brackets.{after_byte, at_depth, is_closed};

    /// Before the first byte.
    pub(crate) fn new() -> Brackets
        ensures { result ≡ at_depth 0 Data }
    {
        Brackets {
            depth: 0,
            inside: Inside::Data,
        }
    }

    /// Behind more bytes.
    pub(crate) fn after(self, bytes: &[u8]) -> Brackets
        requires { self.depth + length bytes.now < 2 ^ 64 }
        ensures exact { result ≡ fold after_byte self bytes.now }
        ensures bound { result.depth ≤ self.depth + length bytes.now }
    {
        let mut count = self;
        let mut rest = bytes;
        'marks: loop {
            let (_, marked) = rest.split_at(count.unmarked(rest));
            let [mark, others @ ..] = marked else {
                return count;
            };
            count = count.after_byte(*mark);
            rest = others;
        }
    }

    /// How many bytes come first that change nothing.
    #[inline]
    fn unmarked(self, bytes: &[u8]) -> usize
        ensures exact { fold after_byte self (take result bytes.now) ≡ self }
        ensures within { result ≤ length bytes.now }
    {
        match self.inside {
            Inside::Data => len_before_three(bytes, b'[', b']', b'"'),
            Inside::InString => len_before_two(bytes, b'"', b'\\'),
            Inside::Backslash => 0,
            Inside::Closed => bytes.len(),
        }
    }

    /// Whether the count has returned to 0.
    pub(crate) fn is_closed(self) -> bool
        ensures { result ≡ is_closed self.inside }
    {
        matches!(self.inside, Inside::Closed)
    }

    /// Behind one byte more.
    #[inline(always)]
    fn after_byte(self, c: u8) -> Brackets
        requires { self.depth + 1 < 2 ^ 64 }
        ensures exact { result ≡ after_byte self c }
        ensures bound { result.depth ≤ self.depth + 1 }
    {
        match self.inside {
            Inside::Data => after_data(self.depth, c),
            Inside::InString => after_in_string(self.depth, c),
            Inside::Backslash => at_depth(self.depth, Inside::InString),
            Inside::Closed => self,
        }
    }
}

/// A byte outside strings.
#[inline(always)]
fn after_data(depth: u64, c: u8) -> Brackets
    requires { depth + 1 < 2 ^ 64 }
    ensures exact { result ≡ after_data depth c }
    ensures bound { result.depth ≤ depth + 1 }
{
    match c {
        b'[' => at_depth(depth + 1, Inside::Data),
        b']' => after_closing(depth),
        b'"' => at_depth(depth, Inside::InString),
        _ => at_depth(depth, Inside::Data),
    }
}

/// A closing bracket: the last that is open closes the data.
#[inline(always)]
fn after_closing(depth: u64) -> Brackets
    ensures exact { result ≡ after_data depth 93 }
    ensures bound { result.depth ≤ depth }
{
    if depth <= 1 {
        at_depth(0, Inside::Closed)
    } else {
        at_depth(depth - 1, Inside::Data)
    }
}

/// A byte in a string.
#[inline(always)]
fn after_in_string(depth: u64, c: u8) -> Brackets
    ensures exact { result ≡ after_in_string depth c }
    ensures bound { result.depth ≤ depth }
{
    match c {
        b'"' => at_depth(depth, Inside::Data),
        b'\\' => at_depth(depth, Inside::Backslash),
        _ => at_depth(depth, Inside::InString),
    }
}

#[inline(always)]
fn at_depth(depth: u64, inside: Inside) -> Brackets
    ensures { result ≡ at_depth depth inside }
{
    Brackets { depth, inside }
}
