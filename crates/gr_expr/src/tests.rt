// What no clause says: that threads may share typed trees, and that a search is copied where there is memory.
mod rules;

use super::*;
use gr_base::{Bytes, ColumnNo, ListOf, TableNo};
use gr_values::{DataType, Field, Hop, Path, Shape};
use std::alloc::Global;
use std::test::Fail;

/// The same value, which threads may share.
fn shared<T: Send + Sync>(value: T) -> T {
    value
}

fn is_all(expr: &Expr) -> bool {
    matches!(expr, Expr::All)
}

#[test]
fn threads_may_share_a_condition(rt: HostRuntime) {
    assert!(rt; is_all(&shared(Expr::All)));
}

/// A search for a long text in the key of a record that another refers to.
fn search(alloc: Global) -> Result<SeekLeaf, Fail> {
    let hop = Hop {
        column: ColumnNo(5),
        to: TableNo(2),
    };
    let path = Path {
        table: TableNo(1),
        through: ListOf::from_vec(vec![in alloc; hop]?),
        last: Field::Key,
        shape: Shape {
            list: false,
            of: DataType::ShortText,
            reference: false,
        },
        to: None,
    };
    Ok(SeekLeaf {
        path,
        seek: Seek::Prefix,
        by: By::Chars,
        value: Literal::Text(Bytes::from_slice(alloc, b"more than 14 bytes")?),
    })
}

/// The text that a search asks for, and nothing where it asks for another value.
fn sought(leaf: &SeekLeaf) -> &[u8] {
    match &leaf.value {
        Literal::Text(text) => text.as_slice(),
        _ => b"",
    }
}

/// The table that a search's path first goes to.
fn first_hop(leaf: &SeekLeaf) -> Option<TableNo> {
    match leaf.path.through.as_slice() {
        [hop, ..] => Some(hop.to),
        [] => None,
    }
}

#[test]
fn a_search_is_copied_whole(rt: HostRuntime) -> Result<(), Fail> {
    let copy = search(rt.alloc())?.try_clone(rt.alloc())?;
    assert_eq!(rt; sought(&copy), b"more than 14 bytes".as_slice());
    assert_eq!(rt; first_hop(&copy), Some(TableNo(2)));
    assert_eq!(rt; copy.path.last, Field::Key);
    assert_eq!(rt; copy.by, By::Chars);
    Ok(())
}
