// A type for each comparison, so that a loop over values is made for one comparison alone and asks nothing at each step.
ghost use Rattle.std.specs.Prelude.{◌≡◌};
ghost use Rattle.gr_base.specs.declared.compare.Cmp.{Cmp};
ghost use Rattle.gr_base.specs.declared.compare.Cmp.TheVariants.{Eq, Ne, Lt, Le, Gt, Ge};

use gr_base::Cmp;

/// A comparison, by its type.
pub(crate) trait Chosen {
    ghost chosen: { Cmp };

    fn cmp() -> Cmp
        ensures { result ≡ chosen };
}

// Values that are equal.
pub(crate) struct Equal;

impl Chosen for Equal {
    ghost chosen = { Eq };

    fn cmp() -> Cmp {
        Cmp::Eq
    }
}

// Values that differ.
pub(crate) struct Other;

impl Chosen for Other {
    ghost chosen = { Ne };

    fn cmp() -> Cmp {
        Cmp::Ne
    }
}

// Values below.
pub(crate) struct Below;

impl Chosen for Below {
    ghost chosen = { Lt };

    fn cmp() -> Cmp {
        Cmp::Lt
    }
}

// Values below or equal.
pub(crate) struct UpTo;

impl Chosen for UpTo {
    ghost chosen = { Le };

    fn cmp() -> Cmp {
        Cmp::Le
    }
}

// Values above.
pub(crate) struct Above;

impl Chosen for Above {
    ghost chosen = { Gt };

    fn cmp() -> Cmp {
        Cmp::Gt
    }
}

// Values above or equal.
pub(crate) struct From;

impl Chosen for From {
    ghost chosen = { Ge };

    fn cmp() -> Cmp {
        Cmp::Ge
    }
}
