// Words of a query, sought in match columns.
ghost use Rattle.std.specs.Prelude.{◌≡◌, IfOk, map, not, Some};
ghost use Rattle.std.specs.List.{list_any};
ghost use Rattle.gr_bind.specs.Inside.Told.{Tells};
ghost use Rattle.gr_bind.specs.Typing.{takes_word, word, word_leaf};

use crate::ValueKind;
use crate::column::Column;
use crate::kinds::path_kind;
use crate::operand::Operand;
use crate::refused::refused;
use gr_base::{Bytes, Failure, Fault, FaultKind, NoMemory};
use gr_expr::{Expr, Literal, Seek, SeekLeaf, WeightedLeaf};
use sqlite_items::Items;
use std::alloc::Global;

// A word sought in match columns.
pub(crate) fn word(
    alloc: Global,
    columns: &Option<Items<Column>>,
    at: u64,
    seek: Seek,
    text: &Bytes,
) -> Result<Operand, Failure<Fault>>
    ensures { Tells result (word columns.now at seek text.now) }
{
    match columns {
        None => refused(alloc, FaultKind::NoMatchColumn, at),
        Some(columns) => weighted(alloc, columns.as_slice(), at, seek, text),
    }
}

fn weighted(
    alloc: Global,
    columns: &[Column],
    at: u64,
    seek: Seek,
    text: &Bytes,
) -> Result<Operand, Failure<Fault>>
    ensures { Tells result (word (Some columns.now) at seek text.now) }
{
    if is_refused_by_some(seek, columns) {
        return refused(alloc, FaultKind::TypeMismatch, at);
    }
    let leaves = word_leaves(alloc, columns, seek, text)?;
    Ok(Operand::Condition(Expr::Weighted(leaves)))
}

fn is_refused_by_some(seek: Seek, columns: &[Column]) -> bool
    ensures { result ≡ list_any (λ column. not (takes_word seek column)) columns.now }
{
    columns.iter().any(|column| !takes_word(seek, column))
}

// Whether a word is sought in a column; the beginnings of words are sought in texts alone.
fn takes_word(seek: Seek, column: &Column) -> bool
    ensures { result ≡ takes_word seek column.now }
{
    match seek {
        Seek::Match => true,
        Seek::Prefix | Seek::Suffix => path_kind(&column.path).is(ValueKind::Text),
    }
}

fn word_leaves(
    alloc: Global,
    columns: &[Column],
    seek: Seek,
    text: &Bytes,
) -> Result<Items<WeightedLeaf>, NoMemory>
    ensures { IfOk result (λ leaves. leaves ≡ map (word_leaf seek text.now) columns.now) }
{
    let mut leaves = Items::new(alloc);
    for column in columns {
        leaves.push(word_leaf(alloc, column, seek, text)?)?;
    }
    Ok(leaves)
}

fn word_leaf(
    alloc: Global,
    column: &Column,
    seek: Seek,
    text: &Bytes,
) -> Result<WeightedLeaf, NoMemory>
    ensures { IfOk result (λ leaf. leaf ≡ word_leaf seek text.now column.now) }
{
    let path = column.path.try_clone(alloc)?;
    let by = column.by;
    let value = Literal::Text(text.try_clone()?);
    Ok(WeightedLeaf {
        weight: column.weight,
        leaf: SeekLeaf {
            path,
            seek,
            by,
            value,
        },
    })
}
