// Which tables may be made.
ghost use Rattle.std.specs.Prelude.{◌≡◌, ◌&&◌, ◌||◌, not, Some, is_none, is_some, IfErr, IfOk};
ghost use Rattle.std.specs.Option.{option_map};
ghost use Rattle.gr_base.specs.Fault.{fault_named};
ghost use Rattle.gr_schema.specs.Fields.{is_short_text};
ghost use Rattle.gr_schema.specs.Schema.{table_named};
ghost use Rattle.gr_schema.specs.Words.{is_one_of, named, reserved_names, table_kinds, tokenizers};
ghost use Rattle.gr_schema.specs.Wishes.{IsAnswer, IsTableFor, IsTextTable, IsTold, fits_kind, is_given, key_type_named, kind_of, table_fault, table_of};

use crate::fields::is_short_text;
use crate::words::{is_reserved, table_kind_named, tokenizer_named, type_named};
use crate::{Schema, TableDef, TableKind, TableWish};
use gr_base::{Bytes, Failure, Fault, FaultKind, is_name};
use gr_pvec::PVec;
use gr_values::DataType;
use std::alloc::Global;

/// The parameter that a tokenizer is given by.
const TOKENIZER_PARAMETER: &str = "default_tokenizer";

impl Schema {
    /// The table that a `table_create` asks for, or the first fault. The rules are those of the Groonga reference manual's page on `table_create`, as far as it goes
    /// here.
    pub fn check_table(&self, alloc: Global, wish: &TableWish) -> Result<TableDef, Failure<Fault>>
        ensures exact { IsAnswer (table_fault self.now wish.now) (Some (table_of wish.now)) result }
        ensures wished { IfOk result (IsTableFor self.now) }
        ensures text { IsTextTable wish.now → IfErr result IsTold }
    {
        if let Some((kind, text)) = self.table_fault(wish) {
            let name = Bytes::from_slice(alloc, text)?;
            return Err(Failure::Refused(Fault::named(kind, name)));
        }
        Ok(TableDef {
            name: wish.name.try_clone()?,
            kind: kind_of(wish.flags.as_slice()),
            key: key_type_named(wish.key_type.as_slice()),
            tokenizer: tokenizer_named(wish.tokenizer.as_slice()),
            columns: PVec::new(),
        })
    }

    // The first fault of a wish, and its text.
    fn table_fault<'a>(&self, wish: &'a TableWish) -> Option<(FaultKind, &'a [u8])>
        ensures { option_map (λ fault. fault_named fault.0 fault.1.now) result ≡ table_fault self.now wish.now }
    {
        let name = wish.name.as_slice();
        let flags = wish.flags.as_slice();
        let key_type = wish.key_type.as_slice();
        let tokenizer = wish.tokenizer.as_slice();
        if !is_name(name) {
            return Some((FaultKind::BadName, name));
        }
        if self.is_taken(name) {
            return Some((FaultKind::NameTaken, name));
        }
        if is_no_kind(flags) {
            return Some((FaultKind::BadFlags, flags));
        }
        if !fits_kind(kind_of(flags), key_type) {
            return Some((FaultKind::BadType, key_type));
        }
        if is_no_tokenizer(tokenizer) {
            return Some((FaultKind::BadValue, TOKENIZER_PARAMETER.as_bytes()));
        }
        if lacks_short_text(tokenizer, key_type) {
            return Some((FaultKind::BadType, key_type));
        }
        None
    }

    // Whether a name is reserved, or that of a table.
    fn is_taken(&self, name: &[u8]) -> bool
        ensures { result ≡ (is_one_of reserved_names name.now || is_some (table_named self.now name.now)) }
    {
        is_reserved(name) || self.table(name).is_some()
    }
}

// Whether flags are given and ask for no kind of table.
fn is_no_kind(flags: &[u8]) -> bool
    ensures { result ≡ (is_given flags.now && is_none (named table_kinds flags.now)) }
{
    !flags.is_empty() && table_kind_named(flags).is_none()
}

// Whether a tokenizer is given and is none.
fn is_no_tokenizer(tokenizer: &[u8]) -> bool
    ensures { result ≡ (is_given tokenizer.now && is_none (named tokenizers tokenizer.now)) }
{
    !tokenizer.is_empty() && tokenizer_named(tokenizer).is_none()
}

// Whether a tokenizer is given where keys are no short texts.
fn lacks_short_text(tokenizer: &[u8], key_type: &[u8]) -> bool
    ensures { result ≡ (is_given tokenizer.now && not (is_short_text (key_type_named key_type.now))) }
{
    !tokenizer.is_empty() && !is_short_text(key_type_named(key_type))
}

// The kind of a table that flags ask for.
fn kind_of(flags: &[u8]) -> TableKind
    ensures { result ≡ kind_of flags.now }
{
    table_kind_named(flags).unwrap_or(TableKind::Hash)
}

// The type of keys of this name.
fn key_type_named(name: &[u8]) -> Option<DataType>
    ensures { result ≡ key_type_named name.now }
{
    let of = type_named(name)?;
    if of.is_key_type() { Some(of) } else { None }
}

// Whether this is the key type of such a table.
fn fits_kind(kind: TableKind, key_type: &[u8]) -> bool
    ensures { result ≡ fits_kind kind key_type.now }
{
    match kind {
        TableKind::NoKey => key_type.is_empty(),
        TableKind::Hash | TableKind::Pat => key_type_named(key_type).is_some(),
    }
}
