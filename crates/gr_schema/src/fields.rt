// Fields of a table by their names, and which of them an index can read.
ghost use Rattle.std.specs.Prelude.{◌≡◌};
ghost use Rattle.gr_schema.specs.Fields.{field_named, holds_text, is_reference_field, is_same_field, is_short_text, is_text_field, refers_to};

use crate::table::Table;
use crate::words::KEY_NAME;
use crate::{Role, TableDef};
use gr_base::TableNo;
use gr_values::{DataType, Field, Kind};

// Whether two fields are one.
pub(crate) fn is_same_field(field: Field, other: Field) -> bool
    ensures { result ≡ is_same_field field other }
{
    match (field, other) {
        (Field::Id, Field::Id) | (Field::Key, Field::Key) => true,
        (Field::Column(column), Field::Column(other)) => column.0 == other.0,
        _ => false,
    }
}

// Whether keys are short texts.
pub(crate) fn is_short_text(key: Option<DataType>) -> bool
    ensures { result ≡ is_short_text key }
{
    matches!(key, Some(DataType::ShortText))
}

// Whether a column holds one text.
fn holds_text(role: &Role) -> bool
    ensures { result ≡ holds_text role.now }
{
    match role {
        Role::Scalar(Kind::Plain(of)) => of.text_limit().is_some(),
        _ => false,
    }
}

// Whether a column holds references to this table, one or a list of them.
fn refers_to(role: &Role, table: TableNo) -> bool
    ensures { result ≡ refers_to table role.now }
{
    match role {
        Role::Scalar(Kind::Reference(to)) | Role::Vector(Kind::Reference(to)) => to.0 == table.0,
        _ => false,
    }
}

// Whether a lexicon's index can read a field.
pub(crate) fn is_text_field(table: &TableDef, field: Field) -> bool
    ensures { result ≡ is_text_field table.now field }
{
    match field {
        Field::Id => false,
        Field::Key => is_short_text(table.key),
        Field::Column(column) => match table.columns.get(column.0 as u64) {
            Some(column) => holds_text(&column.role),
            None => false,
        },
    }
}

// Whether an index on this table, which is no lexicon, can read a field of the target.
pub(crate) fn is_reference_field(table: TableNo, target: &TableDef, field: Field) -> bool
    ensures { result ≡ is_reference_field table target.now field }
{
    match field {
        Field::Id | Field::Key => false,
        Field::Column(column) => match target.columns.get(column.0 as u64) {
            Some(column) => refers_to(&column.role, table),
            None => false,
        },
    }
}

// The key or the column of this name.
pub(crate) fn field_named(table: &Table, name: &[u8]) -> Option<Field>
    ensures { result ≡ field_named table.now name.now }
{
    if name == KEY_NAME.as_bytes() {
        return Some(Field::Key);
    }
    Some(Field::Column(table.column(name)?))
}
