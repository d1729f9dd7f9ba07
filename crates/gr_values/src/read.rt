// Cells and keys as load data give them.
ghost use Rattle.std.specs.Prelude.{◌≡◌, false, true, IfOk, IfSome, IsUtf8, string_bytes};
ghost use Rattle.serde_json.specs.View.{number_view, view};
ghost use Rattle.gr_base.specs.Failure.{Answers, result_map};
ghost use Rattle.gr_values.specs.Fits.{Fits, IsIn, IsItemOf, IsKeyOf, IsPlain, IsReference, IsTextWithin};
ghost use Rattle.gr_values.specs.Types.{IsShape, is_bool, is_key_type};
ghost use Rattle.gr_values.specs.Values.{cell_of, fault_of_number, given_of, is_empty_text, item_of, key_of, not_empty, number_of, referred, scalar_of, text_of, truth_of, unlike, value_of, whole_of};

use crate::read_list::read_list;
use crate::{DataType, Given, Key, Range, ReadFault, Shape};
use gr_base::{Bytes, FaultKind};
use serde_json::{Number, Value};
use std::alloc::Global;

/// The cell that a value of JSON gives, and `None` for null. A text is moved, and not copied.
pub fn read_cell(alloc: Global, json: Value, shape: Shape) -> Result<Option<Given>, ReadFault>
    requires { IsShape shape }
    ensures exact { Answers result (cell_of shape (view json)) }
    ensures fits { IfOk result (λ cell. IfSome cell (Fits shape)) }
{
    match json {
        Value::Null => Ok(None),
        json => Ok(Some(read_value(alloc, json, shape)?)),
    }
}

/// The key that a value of JSON gives. A text is moved, and not copied.
pub fn read_key(alloc: Global, json: Value, of: DataType) -> Result<Key, ReadFault>
    requires { is_key_type of ≡ true }
    ensures exact { Answers result (key_of of (view json)) }
    ensures fits { IfOk result (IsKeyOf of) }
{
    not_empty(read_item(alloc, json, of)?)
}

/// A key, which is no empty text.
pub(crate) fn not_empty(key: Key) -> Result<Key, ReadFault>
    ensures exact { Answers result (not_empty key) }
    ensures same { IfOk result (λ given. (given ≡ key) × (is_empty_text key ≡ false)) }
{
    if key.is_empty_text() {
        Err(ReadFault::Refused(FaultKind::EmptyKey))
    } else {
        Ok(key)
    }
}

/// A list or one value.
fn read_value(alloc: Global, json: Value, shape: Shape) -> Result<Given, ReadFault>
    requires { IsShape shape }
    ensures exact { Answers result (value_of shape (view json)) }
    ensures fits { IfOk result (Fits shape) }
{
    if shape.list {
        read_list(alloc, json, shape)
    } else if shape.reference {
        read_reference(alloc, json, shape)
    } else {
        read_plain(alloc, json, shape)
    }
}

/// One reference; the empty text refers to nothing.
fn read_reference(alloc: Global, json: Value, shape: Shape) -> Result<Given, ReadFault>
    requires shape { IsShape shape }
    requires one { IsReference shape }
    ensures exact { Answers result (scalar_of shape (view json)) }
    ensures fits { IfOk result (Fits shape) }
{
    let key = read_item(alloc, json, shape.of)?;
    Ok(Given::Ref(referred(key)))
}

fn referred(key: Key) -> Option<Key>
    ensures { result ≡ referred key }
{
    if key.is_empty_text() { None } else { Some(key) }
}

/// One value that is no reference.
fn read_plain(alloc: Global, json: Value, shape: Shape) -> Result<Given, ReadFault>
    requires { IsPlain shape }
    ensures exact { Answers result (scalar_of shape (view json)) }
    ensures fits { IfOk result (Fits shape) }
{
    if shape.of.is_bool() {
        Ok(Given::Bool(truth_of(json)?))
    } else {
        Ok(given_of(read_item(alloc, json, shape.of)?))
    }
}

fn given_of(key: Key) -> Given
    ensures { result ≡ given_of key }
{
    match key {
        Key::Number(number) => Given::Int(number),
        Key::Text(text) => Given::Text(text),
    }
}

/// A number or a text of this type.
pub(crate) fn read_item(alloc: Global, json: Value, of: DataType) -> Result<Key, ReadFault>
    ensures exact { Answers result (item_of of (view json)) }
    ensures fits { IfOk result (IsItemOf of) }
{
    match (of.range(), of.text_limit()) {
        (Some(range), _) => Ok(Key::Number(number_of(json, range)?)),
        (None, Some(limit)) => Ok(Key::Text(read_text(alloc, json, limit)?)),
        (None, None) => Err(ReadFault::Refused(unlike(json))),
    }
}

/// A whole number within the range.
pub(crate) fn number_of(json: Value, range: Range) -> Result<i128, FaultKind>
    ensures exact { result ≡ number_of range (view json) }
    ensures fits { IfOk result (IsIn range) }
{
    match json {
        Value::Number(number) => range.checked(whole_of(number)?),
        _ => Err(FaultKind::BadValue),
    }
}

fn whole_of(number: Number) -> Result<i128, FaultKind>
    ensures { result ≡ whole_of (number_view number) }
{
    number.as_i128().ok_or(FaultKind::FloatRefused)
}

/// A text of no more bytes than the limit, moved.
pub(crate) fn read_text(alloc: Global, json: Value, limit: usize) -> Result<Bytes, ReadFault>
    ensures exact { Answers result (text_of limit (view json)) }
    ensures fits { IfOk result (IsTextWithin limit) }
{
    match json {
        Value::String(text) => {
            if text.len() > limit {
                Err(ReadFault::Refused(FaultKind::TooLong))
            } else {
                Ok(Bytes::from_string(alloc, text)?)
            }
        }
        json => Err(ReadFault::Refused(unlike(json))),
    }
}

fn truth_of(json: Value) -> Result<bool, FaultKind>
    ensures { result ≡ truth_of (view json) }
{
    match json {
        Value::Bool(truth) => Ok(truth),
        json => Err(unlike(json)),
    }
}

/// What a value is refused for where another kind is taken.
pub(crate) fn unlike(json: Value) -> FaultKind
    ensures { result ≡ unlike (view json) }
{
    match json {
        Value::Number(number) => fault_of_number(number),
        _ => FaultKind::BadValue,
    }
}

fn fault_of_number(number: Number) -> FaultKind
    ensures { result ≡ fault_of_number (number_view number) }
{
    if number.is_f64() {
        FaultKind::FloatRefused
    } else {
        FaultKind::BadValue
    }
}
