// What a condition reads: the records of tables.
ghost use Rattle.std.specs.Prelude.{◌≡◌, List, length, is_some};
ghost use Rattle.std.specs.Option.{option_copied, option_map};
ghost use Rattle.gr_expr.specs.Tables.{Records, cell_at, id_in, key_at, record_at, records_of};
ghost use Rattle.gr_values.specs.View.{shown};

use gr_base::{ColumnNo, RecordId, TableNo};
use gr_values::{CellView, Key};

/// The records of a database's tables. No call takes memory.
pub trait Rows {
    /// The records of each table, in order of making.
    ghost tables: { Self → List Records };

    /// Whether there is a record of this id.
    fn is_alive(&self, table: TableNo, id: RecordId) -> bool
        ensures { result ≡ is_some (record_at (tables self.now) table id) };

    /// The key of a record, lent; none where there is no such record, or it has no key.
    fn key(&self, table: TableNo, id: RecordId) -> Option<&Key>
        ensures { option_copied result ≡ key_at (tables self.now) table id };

    /// What a record keeps in a column, lent; none where there is no such record, or the column holds no data.
    fn cell(&self, table: TableNo, id: RecordId, column: ColumnNo) -> Option<CellView<'_>>
        ensures { option_map shown result ≡ cell_at (tables self.now) table id column };

    /// The id of the record that has this key.
    fn find(&self, table: TableNo, key: &Key) -> Option<RecordId>
        ensures { result ≡ id_in (records_of (tables self.now) table) key.now };

    /// The id that was given last, and 0 where none was.
    fn last_id(&self, table: TableNo) -> RecordId
        ensures { result.0 ≡ length (records_of (tables self.now) table) };
}
