// The shapes of columns.
ghost use Rattle.std.specs.Prelude.{◌≡◌};
ghost use Rattle.gr_db.specs.Db.{kind_shape, role_shape};
ghost use Rattle.gr_schema.specs.Paths.{key_type};

use gr_base::TableNo;
use gr_schema::{Role, Schema};
use gr_values::{DataType, Kind, Shape};

/// The shape of the cells of a column of this role, which is `None` where it is an index. The shape of a reference has the type of its table's keys.
pub fn shape_of(schema: &Schema, role: &Role) -> Option<Shape>
    ensures { result ≡ role_shape schema.now role.now }
{
    match role {
        Role::Scalar(kind) => kind_shape(schema, false, *kind),
        Role::Vector(kind) => kind_shape(schema, true, *kind),
        Role::Index { .. } => None,
    }
}

// The shape of values of a kind, or of lists of them.
fn kind_shape(schema: &Schema, list: bool, kind: Kind) -> Option<Shape>
    ensures { result ≡ kind_shape schema.now list kind }
{
    match kind {
        Kind::Plain(of) => Some(Shape {
            list,
            of,
            reference: false,
        }),
        Kind::Reference(to) => Some(Shape {
            list,
            of: key_type(schema, to)?,
            reference: true,
        }),
    }
}

// The type of a table's keys.
fn key_type(schema: &Schema, table: TableNo) -> Option<DataType>
    ensures { result ≡ key_type schema.now table }
{
    schema.def(table)?.key
}
