// Paths by their names.
ghost use Rattle.std.specs.Prelude.{◌≡◌, ◌<◌, IfOk, IsUtf8, length};
ghost use Rattle.std.specs.Option.{ok_or, option_and_then, option_map};
ghost use Rattle.gr_base.specs.Failure.{Answers};
ghost use Rattle.gr_base.specs.Fault.{fault_named};
ghost use Rattle.gr_base.specs.declared.fault.FaultKind.TheVariants.{NoSuchColumn};
ghost use Rattle.gr_schema.specs.Paths.{field_end, column_end, hop_named, key_type, kind_end, path_of, plain_end, referred, role_end};
ghost use Rattle.gr_schema.specs.Inside.Ways.{end_of};
ghost use Rattle.gr_schema.specs.Schema.{table_at};

use crate::cut::cut;
use crate::table::Table;
use crate::words::{ID_NAME, KEY_NAME};
use crate::{Role, Schema};
use gr_base::{Bytes, Failure, Fault, FaultKind, ListOf, NoMemory, TableNo};
use gr_values::{DataType, Field, Hop, Kind, Path, Shape};
use std::alloc::Global;

/// A field of a record: which it is, what values it takes, and the table that it refers to where it is a reference.
#[derive(Clone, Copy)]
struct End {
    last: Field,
    shape: Shape,
    to: Option<TableNo>,
}

impl Schema {
    /// The path that a text writes, from a table: names with dots between them, of which all but the last are columns of single references. `_id` and `_key` are
    /// names of fields too; a list that is followed, an index column and any other name is `NoSuchColumn` with the whole text.
    pub fn resolve(
        &self,
        alloc: Global,
        table: TableNo,
        path: &[u8],
    ) -> Result<Path, Failure<Fault>>
        requires text { IsUtf8 path.now }
        requires there { table.0 < length self.now.tables }
        ensures { Answers result (ok_or (path_of self.now table path.now) (fault_named NoSuchColumn path.now)) }
    {
        match self.path(alloc, table, path)? {
            Some(path) => Ok(path),
            None => {
                let name = Bytes::from_slice(alloc, path)?;
                Err(Failure::Refused(Fault::named(FaultKind::NoSuchColumn, name)))
            }
        }
    }

    // The path that a text writes.
    fn path(&self, alloc: Global, table: TableNo, text: &[u8]) -> Result<Option<Path>, NoMemory>
        ensures { IfOk result (λ path. path ≡ path_of self.now table text.now) }
    {
        let mut hops = Vec::new(alloc);
        let mut at = table;
        let mut rest = text;
        'names: while let Some((name, after)) = cut(rest, b'.') {
            let Some(hop) = self.hop(at, name) else {
                return Ok(None);
            };
            hops.push(hop)?;
            at = hop.to;
            rest = after;
        }
        let Some(end) = self.end(at, rest) else {
            return Ok(None);
        };
        Ok(Some(Path {
            table,
            through: ListOf::from_vec(hops),
            last: end.last,
            shape: end.shape,
            to: end.to,
        }))
    }

    // The step along a column of single references.
    fn hop(&self, table: TableNo, name: &[u8]) -> Option<Hop>
        ensures { result ≡ option_and_then (λ home. hop_named home name.now) (table_at self.now table) }
    {
        let home = self.table_at(table)?;
        let column = home.column(name)?;
        let def = home.def().columns.get(column.0 as u64)?;
        match def.role {
            Role::Scalar(Kind::Reference(to)) => Some(Hop { column, to }),
            _ => None,
        }
    }

    // The field of this name.
    fn end(&self, table: TableNo, name: &[u8]) -> Option<End>
        ensures { option_map end_of result ≡ option_and_then (λ home. field_end self.now home name.now) (table_at self.now table) }
    {
        let home = self.table_at(table)?;
        if name == ID_NAME.as_bytes() {
            return Some(plain_end(Field::Id, false, DataType::UInt32));
        }
        if name == KEY_NAME.as_bytes() {
            return Some(plain_end(Field::Key, false, home.def().key?));
        }
        self.column_end(home, name)
    }

    // The data column of this name.
    fn column_end(&self, home: &Table, name: &[u8]) -> Option<End>
        ensures { option_map end_of result ≡ column_end self.now home.now name.now }
    {
        let column = home.column(name)?;
        let def = home.def().columns.get(column.0 as u64)?;
        let field = Field::Column(column);
        match def.role {
            Role::Scalar(kind) => self.kind_end(field, false, kind),
            Role::Vector(kind) => self.kind_end(field, true, kind),
            Role::Index { .. } => None,
        }
    }

    // A column that holds one of these, or a list of them.
    fn kind_end(&self, field: Field, list: bool, kind: Kind) -> Option<End>
        ensures { option_map end_of result ≡ kind_end self.now field list kind }
    {
        match kind {
            Kind::Plain(of) => Some(plain_end(field, list, of)),
            Kind::Reference(to) => {
                let of = self.def(to)?.key?;
                let reference = true;
                let shape = Shape {
                    list,
                    of,
                    reference,
                };
                Some(End {
                    last: field,
                    shape,
                    to: Some(to),
                })
            }
        }
    }
}

// A field with values of this type.
fn plain_end(field: Field, list: bool, of: DataType) -> End
    ensures { end_of result ≡ plain_end field list of }
{
    let reference = false;
    let shape = Shape {
        list,
        of,
        reference,
    };
    End {
        last: field,
        shape,
        to: None,
    }
}
