// The key of a row.
ghost use Rattle.std.specs.Prelude.{◌≡◌, IfOk, option_map, true};
ghost use Rattle.std.specs.Option.{option_and_then};
ghost use Rattle.serde_json.specs.View.{view};
ghost use Rattle.gr_base.specs.Failure.{result_then};
ghost use Rattle.gr_db.specs.Keys.{IsKeyFor};
ghost use Rattle.gr_rows.specs.Inside.Keys.{key_fault_name};
ghost use Rattle.gr_rows.specs.Inside.Targets.{IsTarget};
ghost use Rattle.gr_rows.specs.Inside.Told.{Tells};
ghost use Rattle.gr_rows.specs.Members.{filled_key, in_member, row_key, value_given};
ghost use Rattle.gr_rows.specs.Names.{key_name};
ghost use Rattle.gr_values.specs.Fits.{IsKeyOf};
ghost use Rattle.gr_values.specs.Types.{is_key_type};
ghost use Rattle.gr_values.specs.Values.{item_of};

use crate::fault::row_refused;
use crate::slot::KEY_NAME;
use crate::target::Target;
use gr_base::{Failure, Fault, FaultKind};
use gr_values::{DataType, Key, read_key};
use serde_json::Value;
use std::alloc::Global;

impl Target<'_> {
    /// The key that a row gives by the value at `_key`, where there is one.
    pub(crate) fn row_key(
        &self,
        row: u64,
        value: Option<Value>,
    ) -> Result<Option<Key>, Failure<Fault>>
        requires { IsTarget self.now.schema.now self.now.table self.now.home.now }
        ensures told { Tells result (row_key row self.now.home.now.key (option_and_then value_given (option_map view value))) }
        ensures fits { IfOk result (IsKeyFor self.now.home.now) }
    {
        match (self.home.key, value_given(value)) {
            (None, None) => Ok(None),
            (None, Some(_)) => row_refused(self.alloc, FaultKind::KeyGiven, row, ""),
            (Some(_), None) => row_refused(self.alloc, FaultKind::MissingKey, row, ""),
            (Some(of), Some(value)) => Ok(Some(filled_key(self.alloc, row, value, of)?)),
        }
    }
}

// A value, unless it is null, which counts as not given.
fn value_given(value: Option<Value>) -> Option<Value>
    ensures { option_map view result ≡ option_and_then value_given (option_map view value) }
{
    match value {
        Some(Value::Null) => None,
        value => value,
    }
}

// The key of this type that a value gives, which is no empty text.
fn filled_key(alloc: Global, row: u64, value: Value, of: DataType) -> Result<Key, Failure<Fault>>
    requires { is_key_type of ≡ true }
    ensures told { Tells result (result_then (filled_key row) (in_member row key_name (item_of of (view value)))) }
    ensures fits { IfOk result (IsKeyOf of) }
{
    match read_key(alloc, value, of) {
        Ok(key) => Ok(key),
        Err(Failure::Refused(kind)) => row_refused(alloc, kind, row, key_fault_name(kind)),
        Err(Failure::NoMemory) => Err(Failure::NoMemory),
    }
}

// The name that a fault of a key carries; an empty key has none.
fn key_fault_name(kind: FaultKind) -> &'static str
    ensures { result.now ≡ key_fault_name kind }
{
    match kind {
        FaultKind::EmptyKey => "",
        _ => KEY_NAME,
    }
}
