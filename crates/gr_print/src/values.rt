// Values and keys, as they are kept, written as JSON.
ghost use Rattle.std.specs.Prelude.{◌≡◌, ◌∷◌, [], decimal, map, IfSome, IsUtf8, OnOk, Some};
ghost use Rattle.std.specs.List.{AllByRecursion, filter_map};
ghost use Rattle.std.specs.Option.{option_copied, option_to_list};
ghost use Rattle.json.specs.Token.{begin_array, end_array, number, string};
ghost use Rattle.gr_print.specs.Inside.Legible.{AreKeysLegible, IsLegible};
ghost use Rattle.gr_print.specs.Inside.Tokens.{key_or_empty};
ghost use Rattle.gr_print.specs.Shown.{given_of, key_referred};
ghost use Rattle.gr_values.specs.Shown.{IsKeyText};
ghost use Rattle.gr_values.specs.Tokens.{Appends, array_tokens, empty_token, given_tokens, key_token, number_token};
ghost use Rattle.gr_values.specs.View.{shown};

use gr_base::{Bytes, NoMemory, RecordId, TableNo};
use gr_expr::Rows;
use gr_values::{CellView, DataType, Key};
use itoa::Buffer;
use json::Writer;

/// The opening bracket of an array.
pub fn open_array(writer: &mut Writer) -> Result<(), NoMemory>
    ensures { OnOk result (Appends writer.old writer.new (begin_array ∷ [])) }
{
    writer.begin_array()?;
    Ok(())
}

/// The closing bracket of an array.
pub fn close_array(writer: &mut Writer) -> Result<(), NoMemory>
    ensures { OnOk result (Appends writer.old writer.new (end_array ∷ [])) }
{
    writer.end_array()?;
    Ok(())
}

/// A number that counts.
pub fn write_count(writer: &mut Writer, count: u64) -> Result<(), NoMemory>
    ensures { OnOk result (Appends writer.old writer.new (number (decimal count) ∷ [])) }
{
    writer.u64(count)?;
    Ok(())
}

/// A cell, with references shown by their keys. `of` is the type of the keys that an empty reference is to, and `to` their table.
pub(crate) fn write_cell<R: Rows>(
    writer: &mut Writer,
    rows: &R,
    cell: CellView<'_>,
    of: DataType,
    to: Option<TableNo>,
) -> Result<(), NoMemory>
    requires cell { IsLegible (shown cell) }
    requires keys { AreKeysLegible (R.tables rows.now) to }
    ensures { OnOk result (Appends writer.old writer.new (given_tokens (Some of) (given_of (R.tables rows.now) to (shown cell.entry)))) }
{
    match cell {
        CellView::Bool(truth) => writer.boolean(truth)?,
        CellView::Int(number) => write_number(writer, number)?,
        CellView::Text(text) => write_text(writer, text)?,
        CellView::Ref(id) => write_key(writer, key_referred(rows, to, id), of)?,
        CellView::RefList(ids) => write_keys(writer, rows, ids, to)?,
        CellView::IntList(numbers) => write_numbers(writer, numbers)?,
        CellView::TextList(texts) => write_texts(writer, texts)?,
    }
    Ok(())
}

/// A key, or an empty reference: the empty text, or null where the keys are numbers.
pub fn write_key(writer: &mut Writer, key: Option<&Key>, of: DataType) -> Result<(), NoMemory>
    requires { IfSome (option_copied key) IsKeyText }
    ensures { OnOk result (Appends writer.old writer.new (key_or_empty of (option_copied key.entry) ∷ [])) }
{
    match key {
        Some(key) => write_given(writer, key),
        None => write_empty(writer, of),
    }
}

// A key.
fn write_given(writer: &mut Writer, key: &Key) -> Result<(), NoMemory>
    requires { IsKeyText key.now }
    ensures { OnOk result (Appends writer.old writer.new (key_token key.now ∷ [])) }
{
    match key {
        Key::Number(number) => write_number(writer, *number),
        Key::Text(text) => write_text(writer, text),
    }
}

// An empty reference.
fn write_empty(writer: &mut Writer, of: DataType) -> Result<(), NoMemory>
    ensures { OnOk result (Appends writer.old writer.new (empty_token (Some of) ∷ [])) }
{
    if of.text_limit().is_some() {
        writer.string("")?;
    } else {
        writer.null()?;
    }
    Ok(())
}

/// A whole number.
pub fn write_number(writer: &mut Writer, number: i128) -> Result<(), NoMemory>
    ensures { OnOk result (Appends writer.old writer.new (number_token number ∷ [])) }
{
    let mut buffer = Buffer::new();
    writer.number(buffer.format(number))?;
    Ok(())
}

/// A text.
pub fn write_text(writer: &mut Writer, text: &Bytes) -> Result<(), NoMemory>
    requires { IsUtf8 text.now }
    ensures { OnOk result (Appends writer.old writer.new (string text.now ∷ [])) }
{
    writer.string(text.as_text())?;
    Ok(())
}

// The key of the record of a table that is referred to, where it is there.
fn key_referred<R: Rows>(rows: &R, to: Option<TableNo>, id: RecordId) -> Option<&Key>
    ensures { option_copied result ≡ key_referred (R.tables rows.now) to id }
{
    rows.key(to?, id)
}

// The keys of the records that are there.
fn write_keys<R: Rows>(
    writer: &mut Writer,
    rows: &R,
    ids: &[RecordId],
    to: Option<TableNo>,
) -> Result<(), NoMemory>
    requires { AreKeysLegible (R.tables rows.now) to }
    ensures { OnOk result (Appends writer.old writer.new (array_tokens (map key_token (filter_map (key_referred (R.tables rows.now) to) ids.now)))) }
{
    open_array(writer)?;
    for id in ids {
        write_living(writer, key_referred(rows, to, *id))?;
    }
    close_array(writer)?;
    Ok(())
}

// A key, or nothing where there is none.
fn write_living(writer: &mut Writer, key: Option<&Key>) -> Result<(), NoMemory>
    requires { IfSome (option_copied key) IsKeyText }
    ensures { OnOk result (Appends writer.old writer.new (map key_token (option_to_list (option_copied key.entry)))) }
{
    match key {
        Some(key) => write_given(writer, key),
        None => Ok(()),
    }
}

fn write_numbers(writer: &mut Writer, numbers: &[i128]) -> Result<(), NoMemory>
    ensures { OnOk result (Appends writer.old writer.new (array_tokens (map number_token numbers.now))) }
{
    open_array(writer)?;
    for number in numbers {
        write_number(writer, *number)?;
    }
    close_array(writer)?;
    Ok(())
}

fn write_texts(writer: &mut Writer, texts: &[Bytes]) -> Result<(), NoMemory>
    requires { AllByRecursion IsUtf8 texts.now }
    ensures { OnOk result (Appends writer.old writer.new (array_tokens (map string texts.now))) }
{
    open_array(writer)?;
    for text in texts {
        write_text(writer, text)?;
    }
    close_array(writer)?;
    Ok(())
}
