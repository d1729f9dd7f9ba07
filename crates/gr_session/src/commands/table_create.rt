// `table_create`: a new table.
ghost use Rattle.std.specs.Prelude.{◌≡◌, IfOk};
ghost use Rattle.gr_cmdline.specs.Arguments.{AreTexts};
ghost use Rattle.gr_db.specs.Db.{Db};
ghost use Rattle.gr_schema.specs.Wishes.{IsTextTable};
ghost use Rattle.gr_session.specs.Inside.Kept.{Asks};
ghost use Rattle.gr_session.specs.TableCreate.{table_create, table_wish};

use crate::asked::{Asked, one_change};
use crate::checks::word_of;
use gr_base::NoMemory;
use gr_cmdline::{Command, Param};
use gr_db::Change;
use gr_schema::TableWish;
use std::alloc::Global;

pub(crate) fn table_create(alloc: Global, command: &Command) -> Result<Asked, NoMemory>
    requires { AreTexts command.now.args }
    ensures { (db : Db) → IfOk result (λ asked. Asks db (table_create command.now) asked) }
{
    one_change(alloc, Change::CreateTable(table_wish(alloc, command)?))
}

// The table that is asked for, in the command's own words.
fn table_wish(alloc: Global, command: &Command) -> Result<TableWish, NoMemory>
    ensures exact { IfOk result (λ wish. wish ≡ table_wish command.now) }
    ensures text { IfOk result IsTextTable }
{
    Ok(TableWish {
        name: word_of(alloc, command, Param::Name)?,
        flags: word_of(alloc, command, Param::Flags)?,
        key_type: word_of(alloc, command, Param::KeyType)?,
        tokenizer: word_of(alloc, command, Param::DefaultTokenizer)?,
    })
}
