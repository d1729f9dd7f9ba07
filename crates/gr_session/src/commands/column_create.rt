// `column_create`: a new column.
ghost use Rattle.std.specs.Prelude.{◌≡◌, IfOk};
ghost use Rattle.gr_cmdline.specs.Arguments.{AreTexts};
ghost use Rattle.gr_db.specs.Db.{Db};
ghost use Rattle.gr_schema.specs.Wishes.{IsTextColumn};
ghost use Rattle.gr_session.specs.ColumnCreate.{column_create, column_wish};
ghost use Rattle.gr_session.specs.Inside.Kept.{Asks};

use crate::asked::{Asked, one_change};
use crate::checks::word_of;
use gr_base::NoMemory;
use gr_cmdline::{Command, Param};
use gr_db::Change;
use gr_schema::ColumnWish;
use std::alloc::Global;

pub(crate) fn column_create(alloc: Global, command: &Command) -> Result<Asked, NoMemory>
    requires { AreTexts command.now.args }
    ensures { (db : Db) → IfOk result (λ asked. Asks db (column_create command.now) asked) }
{
    one_change(alloc, Change::CreateColumn(column_wish(alloc, command)?))
}

// The column that is asked for, in the command's own words.
fn column_wish(alloc: Global, command: &Command) -> Result<ColumnWish, NoMemory>
    ensures exact { IfOk result (λ wish. wish ≡ column_wish command.now) }
    ensures text { IfOk result IsTextColumn }
{
    Ok(ColumnWish {
        table: word_of(alloc, command, Param::Table)?,
        name: word_of(alloc, command, Param::Name)?,
        flags: word_of(alloc, command, Param::Flags)?,
        kind: word_of(alloc, command, Param::ColumnType)?,
        source: word_of(alloc, command, Param::Source)?,
    })
}
