// What the members of a row set.
ghost use Rattle.std.specs.Prelude.{◌≡◌, ◌++◌, IfOk, IfSome, OnOk, Some, map};
ghost use Rattle.std.specs.List.{AllByRecursion, zip};
ghost use Rattle.std.specs.Option.{option_to_list};
ghost use Rattle.serde_json.specs.View.{members_view, view};
ghost use Rattle.gr_db.specs.Entry.{IsSetting};
ghost use Rattle.gr_rows.specs.Inside.Places.{IsNamed, column_names};
ghost use Rattle.gr_rows.specs.Inside.Targets.{IsTarget};
ghost use Rattle.gr_rows.specs.Inside.Told.{Tells};
ghost use Rattle.gr_rows.specs.Members.{member_setting, members_in, settings_of, slot_setting};
ghost use Rattle.gr_rows.specs.Names.{slot_named};

use crate::fault::{in_member, row_refused};
use crate::places::Named;
use crate::slot::Slot;
use crate::target::Target;
use gr_base::{ColumnNo, Failure, Fault, FaultKind, ListOf, NoMemory};
use gr_db::Settings;
use gr_values::{Given, Shape, read_cell};
use serde_json::{Map, Value};

impl Target<'_> {
    /// What the members of an object set, by ascending bytes of their names.
    pub(crate) fn object_settings(
        &self,
        row: u64,
        members: Map<String, Value>,
    ) -> Result<Settings, Failure<Fault>>
        requires { IsTarget self.now.schema.now self.now.table self.now.home.now }
        ensures told { Tells result (settings_of self.now.schema.now self.now.home.now row (members_in (members_view members.entries))) }
        ensures each { IfOk result (AllByRecursion (IsSetting self.now.schema.now self.now.table)) }
    {
        let mut settings = Vec::new(self.alloc);
        for (name, value) in members {
            let setting = self.member_setting(row, name.as_str(), value)?;
            push_setting(&mut settings, setting)?;
        }
        Ok(ListOf::from_vec(settings))
    }

    /// What the elements of an array set in these columns, place by place.
    pub(crate) fn array_settings(
        &self,
        row: u64,
        columns: &[Named],
        values: Vec<Value>,
    ) -> Result<Settings, Failure<Fault>>
        requires target { IsTarget self.now.schema.now self.now.table self.now.home.now }
        requires named { AllByRecursion (IsNamed self.now.schema.now self.now.home.now) columns.now }
        ensures told { Tells result (settings_of self.now.schema.now self.now.home.now row (zip (column_names columns.now) (map view values.items))) }
        ensures each { IfOk result (AllByRecursion (IsSetting self.now.schema.now self.now.table)) }
    {
        let mut settings = Vec::with_capacity(self.alloc, values.len())?;
        for (named, value) in columns.iter().zip(values) {
            let name = named.name.as_text();
            let setting = self.column_setting(row, name, value, named.column, named.shape)?;
            push_setting(&mut settings, setting)?;
        }
        Ok(ListOf::from_vec(settings))
    }

    // What a member sets.
    fn member_setting(
        &self,
        row: u64,
        name: &str,
        value: Value,
    ) -> Result<Option<(ColumnNo, Given)>, Failure<Fault>>
        requires { IsTarget self.now.schema.now self.now.table self.now.home.now }
        ensures told { Tells result (member_setting self.now.schema.now self.now.home.now row (name.now, view value)) }
        ensures fits { IfOk result (λ setting. IfSome setting (IsSetting self.now.schema.now self.now.table)) }
    {
        match self.slot_named(name) {
            Some(Slot::Column(column, shape)) => {
                self.column_setting(row, name, value, column, shape)
            }
            Some(Slot::Key) => Ok(None),
            None => row_refused(self.alloc, FaultKind::NoSuchColumn, row, name),
        }
    }

    // What a value sets in a column; null sets nothing.
    fn column_setting(
        &self,
        row: u64,
        name: &str,
        value: Value,
        column: ColumnNo,
        shape: Shape,
    ) -> Result<Option<(ColumnNo, Given)>, Failure<Fault>>
        requires target { IsTarget self.now.schema.now self.now.table self.now.home.now }
        requires named { slot_named self.now.schema.now self.now.home.now name.now ≡ Some (Slot.Column column shape) }
        ensures told { Tells result (slot_setting row name.now (view value) (Slot.Column column shape)) }
        ensures fits { IfOk result (λ setting. IfSome setting (IsSetting self.now.schema.now self.now.table)) }
    {
        let read = read_cell(self.alloc, value, shape);
        match in_member(self.alloc, row, name, read)? {
            Some(given) => Ok(Some((column, given))),
            None => Ok(None),
        }
    }
}

// Adds a setting, where there is one.
fn push_setting(
    settings: &mut Vec<(ColumnNo, Given)>,
    setting: Option<(ColumnNo, Given)>,
) -> Result<(), NoMemory>
    ensures { OnOk result (settings.new.items ≡ settings.old.items ++ option_to_list setting) }
{
    if let Some(setting) = setting {
        settings.push(setting)?;
    }
    Ok(())
}
