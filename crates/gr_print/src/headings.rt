// The names and types of columns, written as JSON.
ghost use Rattle.std.specs.Prelude.{◌≡◌, ◌∷◌, [], OnOk};
ghost use Rattle.std.specs.List.{AllByRecursion};
ghost use Rattle.std.specs.Option.{option_map_or};
ghost use Rattle.json.specs.Token.{string};
ghost use Rattle.gr_print.specs.Block.{item_type, path_type, type_text};
ghost use Rattle.gr_print.specs.Inside.Tokens.{array_of, column_tokens};
ghost use Rattle.gr_print.specs.Inside.Legible.{HasText};
ghost use Rattle.gr_schema.specs.Schema.{table_at};
ghost use Rattle.gr_values.specs.Tokens.{Appends};

use crate::values::{close_array, open_array, write_text};
use crate::{OutColumn, OutItem};
use gr_base::{NoMemory, TableNo};
use gr_schema::Schema;
use gr_values::{DataType, Path};
use json::Writer;

/// The names and types of columns.
pub(crate) fn write_headings(
    writer: &mut Writer,
    schema: &Schema,
    columns: &[OutColumn],
) -> Result<(), NoMemory>
    requires { AllByRecursion HasText columns.now }
    ensures { OnOk result (Appends writer.old writer.new (array_of (column_tokens schema.now) columns.now)) }
{
    open_array(writer)?;
    for column in columns {
        write_heading(writer, schema, column)?;
    }
    close_array(writer)?;
    Ok(())
}

// A column's name and type.
fn write_heading(writer: &mut Writer, schema: &Schema, column: &OutColumn) -> Result<(), NoMemory>
    requires { HasText column.now }
    ensures { OnOk result (Appends writer.old writer.new (column_tokens schema.now column.now)) }
{
    open_array(writer)?;
    write_text(writer, &column.name)?;
    write_type(writer, schema, &column.item)?;
    close_array(writer)?;
    Ok(())
}

// The type of what a column shows, as a text.
fn write_type(writer: &mut Writer, schema: &Schema, item: &OutItem) -> Result<(), NoMemory>
    ensures { OnOk result (Appends writer.old writer.new (string (item_type schema.now item.now) ∷ [])) }
{
    writer.string(item_type(schema, item))?;
    Ok(())
}

// The type of what a column shows.
fn item_type<'a>(schema: &'a Schema, item: &OutItem) -> &'a str
    ensures { result.now ≡ item_type schema.now item.now }
{
    match item {
        OutItem::At(path) => path_type(schema, path),
        OutItem::Score => "Int32",
    }
}

/// The table that a column refers to, or the type of its values.
pub fn path_type<'a>(schema: &'a Schema, path: &Path) -> &'a str
    ensures { result.now ≡ path_type schema.now path.now }
{
    match path.to {
        Some(to) => table_name(schema, to),
        None => type_name(path.shape.of),
    }
}

// The name of a table.
fn table_name(schema: &Schema, table: TableNo) -> &str
    ensures { result.now ≡ option_map_or (λ def. def.name) (table_at schema.now table) [] }
{
    let _sound = schema.indexes();
    match schema.def(table) {
        Some(def) => def.name.as_text(),
        None => "",
    }
}

/// The name of a type.
pub fn type_name(of: DataType) -> &'static str
    ensures { result.now ≡ type_text of }
{
    match of {
        DataType::Bool => "Bool",
        DataType::Int8 => "Int8",
        DataType::Int16 => "Int16",
        DataType::Int32 => "Int32",
        DataType::Int64 => "Int64",
        DataType::UInt8 => "UInt8",
        DataType::UInt16 => "UInt16",
        DataType::UInt32 => "UInt32",
        DataType::UInt64 => "UInt64",
        DataType::ShortText => "ShortText",
        DataType::Text => "Text",
        DataType::LongText => "LongText",
    }
}
