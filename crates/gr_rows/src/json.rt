// Load data as values of JSON.
ghost use Rattle.std.specs.Prelude.{◌≡◌, IfOk, option_and_then, option_map};
ghost use Rattle.serde_json.specs.Find.{as_array};
ghost use Rattle.serde_json.specs.Read.{read};
ghost use Rattle.serde_json.specs.View.{items_view, view};
ghost use Rattle.gr_rows.specs.Text.{array_of};

use crate::comma;
use gr_base::NoMemory;
use serde_json::Value;
use std::alloc::Global;

/// The values of load data, where they are an array.
pub(crate) fn array_of(alloc: Global, text: &str) -> Result<Option<Vec<Value>>, NoMemory>
    ensures { IfOk result (λ values. option_map (λ values. items_view values.items) values ≡ array_of text.now) }
{
    match comma::without_last_comma(alloc, text)? {
        Some(copy) => array_read(alloc, copy.as_str()),
        None => array_read(alloc, text),
    }
}

fn array_read(alloc: Global, text: &str) -> Result<Option<Vec<Value>>, NoMemory>
    ensures { IfOk result (λ values. option_map (λ values. items_view values.items) values
        ≡ option_and_then as_array (read text.now)) }
{
    match value_read(alloc, text)? {
        Some(Value::Array(values)) => Ok(Some(values)),
        _ => Ok(None),
    }
}

/// The value that a text is, where it is one.
fn value_read(alloc: Global, text: &str) -> Result<Option<Value>, NoMemory>
    ensures { IfOk result (λ value. option_map view value ≡ read text.now) }
{
    match Value::from_str(alloc, text) {
        Ok(value) => Ok(Some(value)),
        Err(error) => {
            if error.is_memory() {
                Err(NoMemory)
            } else {
                Ok(None)
            }
        }
    }
}
