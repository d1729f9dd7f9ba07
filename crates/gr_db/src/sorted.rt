// Settings by their columns.
ghost use Rattle.std.specs.Prelude.{◌≡◌, IfOk, map};
ghost use Rattle.gr_db.specs.Entry.{AreDistinct};
ghost use Rattle.gr_db.specs.Wants.{by_column};

use gr_base::{ColumnNo, NoMemory};
use gr_values::Given;
use std::alloc::Global;

// The settings by ascending column number, lent.
pub(crate) fn by_column<'a>(
    alloc: Global,
    settings: &'a [(ColumnNo, Given)],
) -> Result<Vec<&'a (ColumnNo, Given)>, NoMemory>
    requires { AreDistinct settings.now }
    ensures { IfOk result (λ sorted. map (λ setting. setting.now) sorted.items ≡ by_column settings.now) }
{
    let mut sorted: Vec<&(ColumnNo, Given)> = settings.iter().collect(alloc)?;
    sorted.sort_by_key(|setting| setting.0.0)?;
    Ok(sorted)
}
