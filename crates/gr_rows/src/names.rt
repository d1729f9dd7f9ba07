// The names of the places of an array: those that a text lists, or those of a header.
ghost use Rattle.std.specs.Prelude.{◌==◌, ◌∷◌, [], IfOk, Some, filter, length, map, not};
ghost use Rattle.serde_json.specs.View.{items_view, view};
ghost use Rattle.gr_base.specs.Failure.{result_map};
ghost use Rattle.gr_rows.specs.Inside.Places.{ArePlaces, names_in};
ghost use Rattle.gr_rows.specs.Inside.Targets.{IsTarget};
ghost use Rattle.gr_rows.specs.Inside.Told.{Tells};
ghost use Rattle.gr_rows.specs.Names.{header_name, header_names, listed_names, names_after, names_of};

use crate::blanks::trimmed;
use crate::fault::refused;
use crate::places::Places;
use crate::target::Target;
use gr_base::{Failure, Fault, FaultKind};
use serde_json::Value;

impl Target<'_> {
    /// The places that a text names, with commas between the names. Blanks around a name are no part of it, and empty names are dropped.
    pub(crate) fn listed_places(&self, columns: &str) -> Result<Places, Failure<Fault>>
        requires { IsTarget self.now.schema.now self.now.table self.now.home.now }
        ensures told { Tells (result_map names_in result) (names_of self.now.schema.now self.now.home.now (map Some (listed_names columns.now))) }
        ensures sound { IfOk result (ArePlaces self.now.schema.now self.now.home.now) }
    {
        let mut places = Places::new(self.alloc);
        for name in columns.split(',') {
            places = self.with_listed(places, trimmed(name))?;
        }
        Ok(places)
    }

    // The places and one more, of this name, where it is not empty.
    fn with_listed(&self, places: Places, name: &str) -> Result<Places, Failure<Fault>>
        requires target { IsTarget self.now.schema.now self.now.table self.now.home.now }
        requires sound { ArePlaces self.now.schema.now self.now.home.now places }
        ensures told { Tells (result_map names_in result) (names_after self.now.schema.now self.now.home.now (names_in places) (map Some (filter (λ name. not (length name == 0)) (name.now ∷ [])))) }
        ensures sound { IfOk result (ArePlaces self.now.schema.now self.now.home.now) }
    {
        if name.is_empty() {
            Ok(places)
        } else {
            self.with_name(places, name)
        }
    }

    /// The places that a header names.
    pub(crate) fn header_places(&self, header: Vec<Value>) -> Result<Places, Failure<Fault>>
        requires { IsTarget self.now.schema.now self.now.table self.now.home.now }
        ensures told { Tells (result_map names_in result) (names_of self.now.schema.now self.now.home.now (header_names (items_view header.items))) }
        ensures sound { IfOk result (ArePlaces self.now.schema.now self.now.home.now) }
    {
        let mut places = Places::new(self.alloc);
        for element in header {
            places = self.with_element(places, element)?;
        }
        Ok(places)
    }

    // The places and one more, of the name that an element of a header is.
    fn with_element(&self, places: Places, element: Value) -> Result<Places, Failure<Fault>>
        requires target { IsTarget self.now.schema.now self.now.table self.now.home.now }
        requires sound { ArePlaces self.now.schema.now self.now.home.now places }
        ensures told { Tells (result_map names_in result) (names_after self.now.schema.now self.now.home.now (names_in places) (header_name (view element) ∷ [])) }
        ensures sound { IfOk result (ArePlaces self.now.schema.now self.now.home.now) }
    {
        match element {
            Value::String(name) => self.with_name(places, name.as_str()),
            _ => refused(self.alloc, FaultKind::BadRow, ""),
        }
    }
}
