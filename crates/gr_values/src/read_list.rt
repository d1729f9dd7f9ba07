// Lists as load data give them.
ghost use Rattle.std.specs.Prelude.{◌≡◌, ◌≤◌, ◌++◌, ◌∷◌, [], true, length, IfOk, OnOk};
ghost use Rattle.std.specs.List.{AllByRecursion};
ghost use Rattle.serde_json.specs.View.{items_view, view};
ghost use Rattle.gr_base.specs.Failure.{Answers, result_map};
ghost use Rattle.gr_values.specs.Fits.{Fits, IsIn, IsKeyOf, IsPlainList, IsTextWithin};
ghost use Rattle.gr_values.specs.Types.{IsShape, is_key_type, range_of, text_limit};
ghost use Rattle.gr_values.specs.Values.{elements_of, item_of, items_of, list_of, number_of, plain_list_by, references, text_of};

use crate::read::{number_of, read_item, read_text, unlike};
use crate::{DataType, Given, Key, Keys, Range, ReadFault, Shape};
use gr_base::{FaultKind, Ints, LONGEST_VECTOR, ListOf, NoMemory, Texts};
use serde_json::Value;
use std::alloc::Global;

/// A list of the shape. Its length is looked at before its elements.
pub(crate) fn read_list(alloc: Global, json: Value, shape: Shape) -> Result<Given, ReadFault>
    requires shape { IsShape shape }
    requires list { shape.list ≡ true }
    ensures exact { Answers result (list_of shape (view json)) }
    ensures fits { IfOk result (Fits shape) }
{
    match json {
        Value::Array(values) => {
            if values.len() > LONGEST_VECTOR {
                Err(ReadFault::Refused(FaultKind::TooLong))
            } else {
                read_elements(alloc, values, shape)
            }
        }
        json => Err(ReadFault::Refused(unlike(json))),
    }
}

fn read_elements(alloc: Global, values: Vec<Value>, shape: Shape) -> Result<Given, ReadFault>
    requires shape { IsShape shape }
    requires list { shape.list ≡ true }
    requires few { length values.items ≤ LONGEST_VECTOR }
    ensures exact { Answers result (elements_of shape (items_view values.items)) }
    ensures fits { IfOk result (Fits shape) }
{
    if shape.reference {
        Ok(Given::RefList(read_references(alloc, values, shape.of)?))
    } else {
        read_plain_list(alloc, values, shape)
    }
}

fn read_plain_list(alloc: Global, values: Vec<Value>, shape: Shape) -> Result<Given, ReadFault>
    requires list { IsPlainList shape }
    requires few { length values.items ≤ LONGEST_VECTOR }
    ensures exact { Answers result (plain_list_by (range_of shape.of) (text_limit shape.of) (items_view values.items)) }
    ensures fits { IfOk result (Fits shape) }
{
    match (shape.of.range(), shape.of.text_limit()) {
        (Some(range), _) => Ok(Given::IntList(read_ints(alloc, values, range)?)),
        (None, Some(limit)) => Ok(Given::TextList(read_texts(alloc, values, limit)?)),
        (None, None) => Err(ReadFault::Refused(FaultKind::BadValue)),
    }
}

fn read_ints(alloc: Global, values: Vec<Value>, range: Range) -> Result<Ints, ReadFault>
    ensures exact { Answers result (items_of (number_of range) (items_view values.items)) }
    ensures each { IfOk result (AllByRecursion (IsIn range)) }
{
    let mut ints = Vec::with_capacity(alloc, values.len())?;
    for value in values {
        ints.push(number_of(value, range)?)?;
    }
    Ok(ListOf::from_vec(ints))
}

fn read_texts(alloc: Global, values: Vec<Value>, limit: usize) -> Result<Texts, ReadFault>
    ensures exact { Answers result (items_of (text_of limit) (items_view values.items)) }
    ensures each { IfOk result (AllByRecursion (IsTextWithin limit)) }
{
    let mut texts = Vec::with_capacity(alloc, values.len())?;
    for value in values {
        texts.push(read_text(alloc, value, limit)?)?;
    }
    Ok(ListOf::from_vec(texts))
}

/// The keys of an array; the empty text refers to nothing and is left out.
fn read_references(alloc: Global, values: Vec<Value>, of: DataType) -> Result<Keys, ReadFault>
    requires { is_key_type of ≡ true }
    ensures exact { Answers result (result_map references (items_of (item_of of) (items_view values.items))) }
    ensures each { IfOk result (AllByRecursion (IsKeyOf of)) }
{
    let mut keys = Vec::with_capacity(alloc, values.len())?;
    for value in values {
        push_reference(&mut keys, read_item(alloc, value, of)?)?;
    }
    Ok(ListOf::from_vec(keys))
}

/// Adds a key, where it is no empty text.
fn push_reference(keys: &mut Vec<Key>, key: Key) -> Result<(), NoMemory>
    ensures { OnOk result (keys.new.items ≡ keys.old.items ++ references (key ∷ [])) }
{
    if !key.is_empty_text() {
        keys.push(key)?;
    }
    Ok(())
}
