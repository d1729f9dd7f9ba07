// What a name in load data stands for.
ghost use Rattle.std.specs.Prelude.{◌≡◌};
ghost use Rattle.gr_rows.specs.Inside.Targets.{IsTarget};
ghost use Rattle.gr_rows.specs.Names.{column_slot, is_key_name, slot_named};

use crate::target::Target;
use gr_base::ColumnNo;
use gr_db::shape_of;
use gr_values::Shape;

/// The name of the key.
pub(crate) const KEY_NAME: &str = "_key";

/// What a name in load data stands for.
#[derive(Clone, Copy, Drop)]
pub enum Slot {
    /// The record's key.
    Key,
    /// A data column, with the shape of its cells.
    Column(ColumnNo, Shape),
}

impl Target<'_> {
    /// What a name stands for, found by its hash: the key, or a data column.
    pub(crate) fn slot_named(&self, name: &str) -> Option<Slot>
        requires { IsTarget self.now.schema.now self.now.table self.now.home.now }
        ensures { result ≡ slot_named self.now.schema.now self.now.home.now name.now }
    {
        if is_key_name(name) {
            return Some(Slot::Key);
        }
        let column = self.schema.column(self.table, name.as_bytes())?;
        self.column_slot(column)
    }

    // A column, where it holds data.
    fn column_slot(&self, column: ColumnNo) -> Option<Slot>
        ensures { result ≡ column_slot self.now.schema.now self.now.home.now column }
    {
        let def = self.home.columns.get(column.0 as u64)?;
        let shape = shape_of(self.schema, &def.role)?;
        Some(Slot::Column(column, shape))
    }
}

// Whether a name is that of the key.
fn is_key_name(name: &str) -> bool
    ensures { result ≡ is_key_name name.now }
{
    KEY_NAME == name
}
