// `dump`: the commands that make the database again.
ghost use Rattle.std.specs.Prelude.{IfOk};
ghost use Rattle.gr_db.specs.Apply.{replay};
ghost use Rattle.gr_session.specs.Dump.{dump};
ghost use Rattle.gr_session.specs.Inside.Kept.{Asks};

use crate::asked::{Asked, nothing};
use gr_base::NoMemory;
use gr_dump::dump as dump_text;
use gr_root::Root;
use std::alloc::Global;

pub(crate) fn dump(alloc: Global, root: &Root) -> Result<Asked, NoMemory>
    ensures { IfOk result (λ asked. let db = replay root.now.journal in Asks db (dump db) asked) }
{
    let text = dump_text(alloc, root.schema(), root)?;
    Ok(nothing(alloc, text))
}
