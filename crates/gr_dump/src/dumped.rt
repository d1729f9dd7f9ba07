// The whole dump.
ghost use Rattle.std.specs.Prelude.{◌≡◌, ◌++◌, IfOk};
ghost use Rattle.gr_db.specs.Fitting.{IsFitting};
ghost use Rattle.gr_dump.specs.Dump.{dump_text};

use crate::indexes::with_index_lines;
use crate::parts::{Part, with_part};
use gr_base::{Bytes, NoMemory};
use gr_expr::Rows;
use gr_schema::Schema;
use std::alloc::Global;

/// The commands that make a database again, as lines: the tables that are no lexicons, their data columns, their records, the lexicons, and all index columns. The
/// tokens that lexicons hold are not written, since the index columns make them again; nor are ids, of which deleted records leave gaps. A reference to a deleted
/// record is written as an empty one. It takes the time of what it writes, and of a look at each id that was given.
pub fn dump<R: Rows>(alloc: Global, schema: &Schema, rows: &R) -> Result<Bytes, NoMemory>
    requires { IsFitting (record { schema = schema.now; tables = R.tables rows.now }) }
    ensures exact { IfOk result (λ text. text ≡ dump_text schema.now (R.tables rows.now)) }
{
    let text = Vec::new(alloc);
    let text = with_part(alloc, text, schema, rows, Part::Tables)?;
    let text = with_part(alloc, text, schema, rows, Part::Columns)?;
    let text = with_part(alloc, text, schema, rows, Part::Values)?;
    let text = with_part(alloc, text, schema, rows, Part::References)?;
    let text = with_part(alloc, text, schema, rows, Part::Keyless)?;
    let text = with_part(alloc, text, schema, rows, Part::Lexicons)?;
    let text = with_index_lines(text, schema)?;
    Bytes::from_vec(alloc, text)
}
