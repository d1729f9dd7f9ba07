// The put that a row asks for.
ghost use Rattle.std.specs.Prelude.{◌≡◌, ◌<◌, IfOk, IfSome, Some, is_some, length, option_map};
ghost use Rattle.std.specs.List.{remove, slice_get};
ghost use Rattle.std.specs.Option.{option_and_then, option_copied, option_map_or};
ghost use Rattle.serde_json.specs.Data.{array};
ghost use Rattle.serde_json.specs.View.{items_view, members_view, view};
ghost use Rattle.gr_db.specs.Entry.{IsPut};
ghost use Rattle.gr_rows.specs.Inside.Places.{ArePlaces, names_in};
ghost use Rattle.gr_rows.specs.Inside.Targets.{IsTarget};
ghost use Rattle.gr_rows.specs.Inside.Told.{Tells};
ghost use Rattle.gr_rows.specs.Members.{members_in, put_of, row_put};

use crate::fault::row_refused;
use crate::places::Places;
use crate::put::Put;
use crate::slot::KEY_NAME;
use crate::target::Target;
use gr_base::{Failure, Fault, FaultKind};
use serde_json::{Map, Value};

impl Target<'_> {
    /// The put that a row asks for, which is counted from 1. The key comes before the other members.
    pub(crate) fn row_put(
        &self,
        places: Option<&Places>,
        row: u64,
        value: Value,
    ) -> Result<Put, Failure<Fault>>
        requires target { IsTarget self.now.schema.now self.now.table self.now.home.now }
        requires sound { IfSome (option_copied places) (ArePlaces self.now.schema.now self.now.home.now) }
        ensures told { Tells result (row_put self.now.schema.now self.now.home.now (option_map names_in (option_copied places.entry)) row (view value)) }
        ensures valid { IfOk result (λ put. IsPut self.now.schema.now self.now.table put.key put.settings) }
    {
        match (places, value) {
            (_, Value::Object(members)) => self.object_put(row, members),
            (Some(places), Value::Array(values)) => self.array_put(places, row, values),
            _ => row_refused(self.alloc, FaultKind::BadRow, row, ""),
        }
    }

    // The put that an object asks for.
    fn object_put(&self, row: u64, mut members: Map<String, Value>) -> Result<Put, Failure<Fault>>
        requires { IsTarget self.now.schema.now self.now.table self.now.home.now }
        ensures told { Tells result (put_of self.now.schema.now self.now.home.now row (members_in (members_view members.entries))) }
        ensures valid { IfOk result (λ put. IsPut self.now.schema.now self.now.table put.key put.settings) }
    {
        let value = members.remove(KEY_NAME);
        let key = self.row_key(row, value)?;
        let settings = self.object_settings(row, members)?;
        Ok(Put { key, settings })
    }

    // The put that an array asks for, which has as many elements as there are places.
    fn array_put(
        &self,
        places: &Places,
        row: u64,
        mut values: Vec<Value>,
    ) -> Result<Put, Failure<Fault>>
        requires target { IsTarget self.now.schema.now self.now.table self.now.home.now }
        requires sound { ArePlaces self.now.schema.now self.now.home.now places.now }
        ensures told { Tells result (row_put self.now.schema.now self.now.home.now (Some (names_in places.now)) row (array (items_view values.items))) }
        ensures valid { IfOk result (λ put. IsPut self.now.schema.now self.now.table put.key put.settings) }
    {
        if values.len() != places.count() {
            return row_refused(self.alloc, FaultKind::BadRow, row, "");
        }
        let value = take_at(&mut values, places.key);
        let key = self.row_key(row, value)?;
        let settings = self.array_settings(row, places.columns.as_slice(), values)?;
        Ok(Put { key, settings })
    }
}

impl Places {
    // How many there are.
    fn count(&self) -> usize
        ensures { result ≡ length (names_in self.now) }
    {
        self.columns.len() + usize::from(self.key.is_some())
    }
}

// Takes the value at a place out, where there is one.
fn take_at(values: &mut Vec<Value>, place: Option<usize>) -> Option<Value>
    requires { IfSome place (λ place. place < length values.old.items) }
    ensures value { result ≡ option_and_then (λ place. slice_get values.old.items place) place }
    ensures others { values.new.items ≡ option_map_or (λ place. remove values.old.items place) place values.old.items }
{
    match place {
        Some(place) => Some(values.remove(place)),
        None => None,
    }
}
