// The keys by which hits are sorted.
ghost use Rattle.std.specs.Prelude.{◌≡◌, ◌≢◌, ◌==◌, ◌∷◌, [], ℕ, List, true, filter, is_some, length, not, IfErr, IfOk};
ghost use Rattle.std.specs.List.{AllByRecursion};
ghost use Rattle.gr_base.specs.Failure.{Answers};
ghost use Rattle.gr_db.specs.Db.{Db};
ghost use Rattle.gr_db.specs.Fitting.{IsFitting};
ghost use Rattle.gr_print.specs.Columns.{listed};
ghost use Rattle.gr_schema.specs.Schema.{table_at};
ghost use Rattle.gr_schema.specs.Wishes.{IsTold};
ghost use Rattle.gr_sort.specs.Inside.Named.{Adds, AreSortable, IsSortableItem};
ghost use Rattle.gr_sort.specs.Keys.{IsSortable, is_descending, item_named, key_of, order, path_named, unsigned};

use gr_base::{Bytes, Failure, Fault, FaultKind, ListOf, TableNo};
use gr_print::{OutItem, trimmed};
use gr_schema::Schema;
use std::alloc::Global;

/// A key by which hits are sorted.
#[derive(Drop)]
pub struct SortKey {
    /// What it reads at a hit: one value at a path, or the score.
    pub item: OutItem,
    /// Whether the highest value comes first.
    pub descending: bool,
}

/// Keys, of which the first counts most.
pub type SortOrder = ListOf<SortKey>;

const SCORE: &str = "_score";

/// The keys that a list asks for, with commas between them: paths and `_score`, each with `-` before it for the descending order, or `+`. White space around a key
/// is no part of it, and empty keys are dropped. A name that is no path is `NoSuchColumn`, and a path to a list `BadSortKey`, with the name without its sign.
pub fn order(
    alloc: Global,
    schema: &Schema,
    table: TableNo,
    text: &str,
) -> Result<SortOrder, Failure<Fault>>
    requires { is_some (table_at schema.now table) ≡ true }
    ensures exact { Answers result (order schema.now table text.now) }
    ensures fit { (db : Db) → db.schema ≡ schema.now → IsFitting db → IfOk result (AllByRecursion (IsSortable db.tables)) }
    ensures text { IfErr result IsTold }
{
    listed_keys(alloc, schema, table, text)
}

// The same, with what holds while the keys are taken one after the other.
fn listed_keys(
    alloc: Global,
    schema: &Schema,
    table: TableNo,
    text: &str,
) -> Result<SortOrder, Failure<Fault>>
    requires { is_some (table_at schema.now table) ≡ true }
    ensures exact { Adds schema.now table [] (listed text.now) result }
    ensures fit { IfOk result (AreSortable schema.now) }
    ensures text { IfErr result IsTold }
{
    let mut made = ListOf::from_vec(Vec::new(alloc));
    for item in text.split(',') {
        made = with_listed(alloc, schema, table, made, trimmed(item))?;
    }
    Ok(made)
}

// The keys so far and one more, where its text is not empty.
fn with_listed(
    alloc: Global,
    schema: &Schema,
    table: TableNo,
    made: SortOrder,
    text: &str,
) -> Result<SortOrder, Failure<Fault>>
    requires there { is_some (table_at schema.now table) ≡ true }
    requires fit { AreSortable schema.now made }
    ensures exact { Adds schema.now table made (filter (λ item. not (length item == 0)) (text.now ∷ [])) result }
    ensures fit { IfOk result (AreSortable schema.now) }
    ensures text { IfErr result IsTold }
{
    if text.is_empty() {
        Ok(made)
    } else {
        with_key(alloc, schema, table, made, text)
    }
}

// The keys so far and one more.
fn with_key(
    alloc: Global,
    schema: &Schema,
    table: TableNo,
    made: SortOrder,
    text: &str,
) -> Result<SortOrder, Failure<Fault>>
    requires there { is_some (table_at schema.now table) ≡ true }
    requires fit { AreSortable schema.now made }
    ensures exact { Adds schema.now table made (text.now ∷ []) result }
    ensures fit { IfOk result (AreSortable schema.now) }
    ensures text { IfErr result IsTold }
{
    let mut keys = made.into_vec();
    keys.push(key_of(alloc, schema, table, text)?)?;
    Ok(ListOf::from_vec(keys))
}

// The key that a text writes.
fn key_of(
    alloc: Global,
    schema: &Schema,
    table: TableNo,
    text: &str,
) -> Result<SortKey, Failure<Fault>>
    requires { is_some (table_at schema.now table) ≡ true }
    ensures exact { Answers result (key_of schema.now table text.now) }
    ensures fit { IfOk result (λ key. IsSortableItem schema.now key.item) }
    ensures text { IfErr result IsTold }
{
    let item = item_named(alloc, schema, table, unsigned(text))?;
    let descending = is_descending(text);
    Ok(SortKey { item, descending })
}

/// Whether a key has the sign that turns its order round.
pub fn is_descending(text: &str) -> bool
    ensures { result ≡ is_descending text.now }
{
    text.starts_with('-')
}

/// What follows the sign of a key, where it has one.
pub fn unsigned(text: &str) -> &str
    ensures { result.now ≡ unsigned text.now }
{
    match text.strip_prefix('-') {
        Some(rest) => rest,
        None => without_plus(text),
    }
}

// The same, where the sign is no `-`.
fn without_plus(text: &str) -> &str
    requires { (rest : List ℕ) → text.now ≢ 45 ∷ rest }
    ensures { result.now ≡ unsigned text.now }
{
    match text.strip_prefix('+') {
        Some(rest) => rest,
        None => text,
    }
}

// What a name stands for.
fn item_named(
    alloc: Global,
    schema: &Schema,
    table: TableNo,
    name: &str,
) -> Result<OutItem, Failure<Fault>>
    requires { is_some (table_at schema.now table) ≡ true }
    ensures exact { Answers result (item_named schema.now table name.now) }
    ensures fit { IfOk result (IsSortableItem schema.now) }
    ensures text { IfErr result IsTold }
{
    if SCORE == name {
        Ok(OutItem::Score)
    } else {
        path_named(alloc, schema, table, name)
    }
}

// The path to one value that a name stands for, which is not the score's.
fn path_named(
    alloc: Global,
    schema: &Schema,
    table: TableNo,
    name: &str,
) -> Result<OutItem, Failure<Fault>>
    requires { is_some (table_at schema.now table) ≡ true }
    ensures exact { Answers result (path_named schema.now table name.now) }
    ensures fit { IfOk result (IsSortableItem schema.now) }
    ensures text { IfErr result IsTold }
{
    let path = schema.resolve(alloc, table, name.as_bytes())?;
    if path.shape.list {
        let name = Bytes::from_slice(alloc, name.as_bytes())?;
        Err(Failure::Refused(Fault::named(FaultKind::BadSortKey, name)))
    } else {
        Ok(OutItem::At(path))
    }
}
