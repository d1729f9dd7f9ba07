// How tightly each operator binds its operands.
ghost use Rattle.std.specs.Prelude.{◌≡◌, nat_lt};
ghost use Rattle.gr_script.specs.Precedence.{rank};

/// How tightly something binds, from the loosest to the tightest.
#[derive(Clone, Copy, Debug, PartialEq, Eq)]
pub(crate) enum Precedence {
    /// Brackets and commas, and the end: they bind nothing.
    Bracket,
    /// `||`
    Any,
    /// `&&` and `&!`
    All,
    /// The comparisons and the searches.
    Comparison,
    /// `+` and `-`
    Sum,
    /// `*`, `/` and `%`
    Product,
    /// `!` and the unary `-`
    Sign,
}

impl Precedence {
    /// Its place among all, the loosest at 0.
    fn rank(self) -> u8
        ensures { result ≡ rank self }
    {
        match self {
            Precedence::Bracket => 0,
            Precedence::Any => 1,
            Precedence::All => 2,
            Precedence::Comparison => 3,
            Precedence::Sum => 4,
            Precedence::Product => 5,
            Precedence::Sign => 6,
        }
    }

    /// Whether it binds more tightly than the other.
    pub(crate) fn is_tighter(self, other: Precedence) -> bool
        ensures { result ≡ nat_lt (rank other) (rank self) }
    {
        self.rank() > other.rank()
    }
}
