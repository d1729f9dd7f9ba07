// Values as JSON shows them.
ghost use Rattle.std.specs.Prelude.{◌∷◌, [], map, IfOk, IsUtf8, OnOk, ◌≡◌};
ghost use Rattle.std.specs.List.{AllByRecursion};
ghost use Rattle.json.specs.Token.{string};
ghost use Rattle.gr_values.specs.Shown.{IsKeyText, IsShowable, given_text};
ghost use Rattle.gr_values.specs.Tokens.{Appends, array_tokens, empty_token, given_tokens, key_token, number_token};

use crate::{DataType, Given, Key};
use gr_base::{Bytes, NoMemory};
use itoa::Buffer;
use json::Writer;
use std::alloc::Global;

/// The JSON text of a value, written compactly. `key_of` is the type of the keys that an empty reference is to.
pub fn given_text(alloc: Global, value: &Given, key_of: Option<DataType>) -> Result<Bytes, NoMemory>
    requires { IsShowable key_of value.now }
    ensures exact { IfOk result (λ text. text ≡ given_text key_of value.now) }
    ensures utf8 { IfOk result IsUtf8 }
{
    let mut writer = Writer::new(Vec::new(alloc));
    write_given(&mut writer, value, key_of)?;
    Bytes::from_vec(alloc, writer.into_inner())
}

fn write_given(writer: &mut Writer, value: &Given, key_of: Option<DataType>) -> Result<(), NoMemory>
    requires { IsShowable key_of value.now }
    ensures { OnOk result (Appends writer.old writer.new (given_tokens key_of value.now)) }
{
    match value {
        Given::Bool(truth) => writer.boolean(*truth)?,
        Given::Int(number) => write_number(writer, *number)?,
        Given::Text(text) => write_text(writer, text)?,
        Given::Ref(Some(key)) => write_key(writer, key)?,
        Given::Ref(None) => write_empty(writer, key_of)?,
        Given::RefList(keys) => write_keys(writer, keys.as_slice())?,
        Given::IntList(numbers) => write_numbers(writer, numbers.as_slice())?,
        Given::TextList(texts) => write_texts(writer, texts.as_slice())?,
    }
    Ok(())
}

fn write_number(writer: &mut Writer, number: i128) -> Result<(), NoMemory>
    ensures { OnOk result (Appends writer.old writer.new (number_token number ∷ [])) }
{
    let mut buffer = Buffer::new();
    writer.number(buffer.format(number))?;
    Ok(())
}

fn write_text(writer: &mut Writer, text: &Bytes) -> Result<(), NoMemory>
    requires { IsUtf8 text.now }
    ensures { OnOk result (Appends writer.old writer.new (string text.now ∷ [])) }
{
    writer.string(text.as_text())?;
    Ok(())
}

fn write_key(writer: &mut Writer, key: &Key) -> Result<(), NoMemory>
    requires { IsKeyText key.now }
    ensures { OnOk result (Appends writer.old writer.new (key_token key.now ∷ [])) }
{
    match key {
        Key::Number(number) => write_number(writer, *number)?,
        Key::Text(text) => write_text(writer, text)?,
    }
    Ok(())
}

/// An empty reference: the empty text, or null where the keys are numbers.
fn write_empty(writer: &mut Writer, key_of: Option<DataType>) -> Result<(), NoMemory>
    ensures { OnOk result (Appends writer.old writer.new (empty_token key_of ∷ [])) }
{
    match key_of {
        Some(of) if of.text_limit().is_some() => writer.string("")?,
        _ => writer.null()?,
    }
    Ok(())
}

fn write_keys(writer: &mut Writer, keys: &[Key]) -> Result<(), NoMemory>
    requires { AllByRecursion IsKeyText keys.now }
    ensures { OnOk result (Appends writer.old writer.new (array_tokens (map key_token keys.now))) }
{
    writer.begin_array()?;
    for key in keys {
        write_key(writer, key)?;
    }
    writer.end_array()?;
    Ok(())
}

fn write_numbers(writer: &mut Writer, numbers: &[i128]) -> Result<(), NoMemory>
    ensures { OnOk result (Appends writer.old writer.new (array_tokens (map number_token numbers.now))) }
{
    writer.begin_array()?;
    for number in numbers {
        write_number(writer, *number)?;
    }
    writer.end_array()?;
    Ok(())
}

fn write_texts(writer: &mut Writer, texts: &[Bytes]) -> Result<(), NoMemory>
    requires { AllByRecursion IsUtf8 texts.now }
    ensures { OnOk result (Appends writer.old writer.new (array_tokens (map string texts.now))) }
{
    writer.begin_array()?;
    for text in texts {
        write_text(writer, text)?;
    }
    writer.end_array()?;
    Ok(())
}
