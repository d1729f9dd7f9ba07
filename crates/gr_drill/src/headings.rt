// The names and types of columns, written as JSON.
ghost use Rattle.std.specs.Prelude.{◌≡◌, ◌∷◌, [], IsUtf8, OnOk};
ghost use Rattle.std.specs.List.{AllByRecursion};
ghost use Rattle.gr_drill.specs.Block.{item_type};
ghost use Rattle.gr_drill.specs.Inside.Tokens.{column_tokens};
ghost use Rattle.gr_print.specs.Inside.Tokens.{array_of};
ghost use Rattle.gr_values.specs.Tokens.{Appends};
ghost use Rattle.json.specs.Token.{string};

use crate::drilldown::{GroupColumn, GroupItem};
use gr_base::NoMemory;
use gr_print::{close_array, open_array, path_type, type_name, write_text};
use gr_schema::Schema;
use gr_values::DataType;
use json::Writer;

/// The names and types of columns, where the values of groups have this type.
pub(crate) fn write_headings(
    writer: &mut Writer,
    schema: &Schema,
    of: DataType,
    columns: &[GroupColumn],
) -> Result<(), NoMemory>
    requires { AllByRecursion (λ column. IsUtf8 column.name) columns.now }
    ensures { OnOk result (Appends writer.old writer.new (array_of (column_tokens schema.now of) columns.now)) }
{
    open_array(writer)?;
    for column in columns {
        write_heading(writer, schema, of, column)?;
    }
    close_array(writer)?;
    Ok(())
}

// A column's name and type.
fn write_heading(
    writer: &mut Writer,
    schema: &Schema,
    of: DataType,
    column: &GroupColumn,
) -> Result<(), NoMemory>
    requires { IsUtf8 column.now.name }
    ensures { OnOk result (Appends writer.old writer.new (column_tokens schema.now of column.now)) }
{
    open_array(writer)?;
    write_text(writer, &column.name)?;
    write_type(writer, schema, of, &column.item)?;
    close_array(writer)?;
    Ok(())
}

// The type of what a column shows, as a text.
fn write_type(
    writer: &mut Writer,
    schema: &Schema,
    of: DataType,
    item: &GroupItem,
) -> Result<(), NoMemory>
    ensures { OnOk result (Appends writer.old writer.new (string (item_type schema.now of item.now) ∷ [])) }
{
    writer.string(item_type(schema, of, item))?;
    Ok(())
}

// The type of what a column shows.
fn item_type<'a>(schema: &'a Schema, of: DataType, item: &GroupItem) -> &'a str
    ensures { result.now ≡ item_type schema.now of item.now }
{
    match item {
        GroupItem::Key => type_name(of),
        GroupItem::Count => "Int32",
        GroupItem::Id => "UInt32",
        GroupItem::At(path) => path_type(schema, path),
    }
}
