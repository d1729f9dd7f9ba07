// Which columns may be made.
ghost use Rattle.std.specs.Prelude.{◌≡◌, ◌||◌, not, false, if◌then◌else◌, IfErr, IfOk, drop};
ghost use Rattle.std.specs.Option.{option_map};
ghost use Rattle.gr_base.specs.Fault.{fault_named};
ghost use Rattle.gr_schema.specs.Flags.{fit_table, flags_of, has, index_flag, vector_flag};
ghost use Rattle.gr_schema.specs.Inside.Flags.{AreMeant, IsRefused, flags_fit};
ghost use Rattle.gr_schema.specs.Wishes.{Home, IsAnswer, IsColumnFor, IsTextColumn, IsTold, can_be_referred_to, column_fault, column_of, column_rules, first_fault, fits_vector, home_of, is_column_name, kind_named, role_of, target_named};

use crate::flags::{Flags, read_flags};
use crate::sources::{Sides, is_lexicon, read_sources};
use crate::table::Table;
use crate::words::{is_script_word, type_named};
use crate::{ColumnDef, ColumnWish, Role, Schema, TableDef};
use gr_base::{Bytes, Failure, Fault, FaultKind, TableNo, is_name};
use gr_values::Kind;
use std::alloc::Global;

impl Schema {
    /// The column that a `column_create` asks for, and the table that is to have it, or the first fault. The rules are those of the Groonga reference manual's
    /// page on `column_create`, as far as it goes here.
    pub fn check_column(
        &self,
        alloc: Global,
        wish: &ColumnWish,
    ) -> Result<(TableNo, ColumnDef), Failure<Fault>>
        ensures exact { IsAnswer (column_fault self.now wish.now) (column_of self.now wish.now) result }
        ensures wished { IfOk result (λ made. IsColumnFor self.now made.0 made.1) }
        ensures text { IsTextColumn wish.now → IfErr result IsTold }
    {
        let Some((no, home)) = self.home(wish.table.as_slice()) else {
            return Err(refused(FaultKind::NoSuchTable, &wish.table));
        };
        let name = wish.name.as_slice();
        if !is_column_name(name) {
            return Err(refused(FaultKind::BadName, &wish.name));
        }
        if home.column(name).is_some() {
            return Err(refused(FaultKind::NameTaken, &wish.name));
        }
        match self.role(alloc, no, home, wish) {
            Ok(role) => {
                let name = wish.name.try_clone()?;
                Ok((no, ColumnDef { name, role }))
            }
            Err(failure) => Err(failure),
        }
    }

    // What a column of this table is for, or the first fault of its flags, its type and its source.
    fn role(
        &self,
        alloc: Global,
        no: TableNo,
        home: &Table,
        wish: &ColumnWish,
    ) -> Result<Role, Failure<Fault>>
        ensures { IsAnswer
            (first_fault (drop 2 (column_rules self.now (home_of no home.now) wish.now)))
            (role_of self.now (home_of no home.now) wish.now)
            result }
    {
        let Some(flags) = read_flags(wish.flags.as_slice()) else {
            return Err(refused(FaultKind::BadFlags, &wish.flags));
        };
        if !fit_table(home.def(), flags) {
            return Err(refused(FaultKind::BadFlags, &wish.flags));
        }
        match flags {
            Flags::Scalar => self.data_role(wish, false),
            Flags::Vector => self.data_role(wish, true),
            Flags::Index { position, section } => {
                self.index_role(alloc, no, home, wish, position, section)
            }
        }
    }

    // What a data column is for, or the first fault of its type and its source.
    fn data_role(&self, wish: &ColumnWish, vector: bool) -> Result<Role, Failure<Fault>>
        requires data { has index_flag (flags_of wish.now.flags) ≡ false }
        requires list { has vector_flag (flags_of wish.now.flags) ≡ vector }
        ensures { (home : Home) → IsAnswer
            (first_fault (drop 3 (column_rules self.now home wish.now)))
            (role_of self.now home wish.now)
            result }
    {
        let Some(kind) = self.kind(wish.kind.as_slice()) else {
            return Err(refused(FaultKind::BadType, &wish.kind));
        };
        if !fits_role(vector, kind) {
            return Err(refused(FaultKind::BadType, &wish.kind));
        }
        if !wish.source.as_slice().is_empty() {
            return Err(refused(FaultKind::BadSource, &wish.source));
        }
        Ok(data_role(vector, kind))
    }

    // What an index column is for, or the first fault of its type and its source.
    fn index_role(
        &self,
        alloc: Global,
        no: TableNo,
        home: &Table,
        wish: &ColumnWish,
        position: bool,
        section: bool,
    ) -> Result<Role, Failure<Fault>>
        requires { AreMeant (flags_of wish.now.flags) (Flags.Index position section) }
        ensures { IsAnswer
            (first_fault (drop 3 (column_rules self.now (home_of no home.now) wish.now)))
            (role_of self.now (home_of no home.now) wish.now)
            result }
    {
        let Some((over, target)) = self.target(wish.kind.as_slice()) else {
            return Err(refused(FaultKind::BadType, &wish.kind));
        };
        let sides = Sides { no, home, target };
        match read_sources(alloc, sides, section, wish.source.as_slice())? {
            Some(sources) => Ok(Role::Index {
                target: over,
                sources,
                position,
                section,
            }),
            None => Err(refused(FaultKind::BadSource, &wish.source)),
        }
    }

    // What a data column holds whose type has this name.
    fn kind(&self, name: &[u8]) -> Option<Kind>
        ensures { result ≡ kind_named self.now name.now }
    {
        if let Some(of) = type_named(name) {
            return Some(Kind::Plain(of));
        }
        let (to, table) = self.home(name)?;
        if can_be_referred_to(table.def()) {
            Some(Kind::Reference(to))
        } else {
            None
        }
    }

    // The table that an index is over whose type has this name.
    fn target(&self, name: &[u8]) -> Option<(TableNo, &Table)>
        ensures { option_map (λ found. home_of found.0 found.1.now) result ≡ target_named self.now name.now }
    {
        let (no, table) = self.home(name)?;
        if is_lexicon(table.def()) {
            None
        } else {
            Some((no, table))
        }
    }
}

// A refusal that tells this text.
fn refused(kind: FaultKind, text: &Bytes) -> Failure<Fault>
    ensures { IsRefused kind text.now result }
{
    match text.try_clone() {
        Ok(name) => Failure::Refused(Fault::named(kind, name)),
        Err(_) => Failure::NoMemory,
    }
}

// Whether a name may be that of a column.
fn is_column_name(name: &[u8]) -> bool
    ensures { result ≡ is_column_name name.now }
{
    is_name(name) && !is_script_word(name)
}

// Whether references can refer to a table.
fn can_be_referred_to(table: &TableDef) -> bool
    ensures { result ≡ can_be_referred_to table.now }
{
    table.key.is_some() && !is_lexicon(table)
}

// A column, a vector or not, that holds such values.
fn data_role(vector: bool, kind: Kind) -> Role
    ensures { result ≡ (if vector then Role.Vector kind else Role.Scalar kind) }
{
    if vector {
        Role::Vector(kind)
    } else {
        Role::Scalar(kind)
    }
}

// Whether a column, a vector or not, can hold such values.
fn fits_role(vector: bool, kind: Kind) -> bool
    ensures { result ≡ (not vector || fits_vector kind) }
{
    !vector || fits_vector(kind)
}

// Whether a vector can hold such values.
fn fits_vector(kind: Kind) -> bool
    ensures { result ≡ fits_vector kind }
{
    match kind {
        Kind::Plain(of) => !of.is_bool(),
        Kind::Reference(_) => true,
    }
}

// Whether a table may have a column of such flags.
fn fit_table(home: &TableDef, flags: Flags) -> bool
    ensures { result ≡ flags_fit home.now flags }
{
    match flags {
        Flags::Scalar | Flags::Vector => !is_lexicon(home),
        Flags::Index { section, .. } => home.key.is_some() && (is_lexicon(home) || !section),
    }
}
