// What no clause says: that threads may share trees, and that a column is copied where there is memory.
use super::*;
use gr_base::Bytes;
use std::test::Fail;

/// The same value, which threads may share.
fn shared<T: Send + Sync>(value: T) -> T {
    value
}

#[test]
fn threads_may_share_a_tree(rt: HostRuntime) {
    let tree = shared(Ast::Number { at: 3, value: 1 });
    assert_eq!(rt; tree.at(), 3);
}

#[test]
fn a_column_is_copied_whole(rt: HostRuntime) -> Result<(), Fail> {
    let path = Bytes::from_slice(rt.alloc(), b"entries.title.of_more_than_14")?;
    let column = MatchColumn {
        path,
        at: 7,
        weight: 3,
    };
    let copy = shared(column).try_clone()?;
    assert_eq!(rt;
        copy.path.as_slice(),
        b"entries.title.of_more_than_14".as_slice()
    );
    assert_eq!(rt; copy.at, 7);
    assert_eq!(rt; copy.weight, 3);
    Ok(())
}

#[test]
fn a_list_with_room_for_one_takes_two(rt: HostRuntime) -> Result<(), Fail> {
    let mut items = room_for_one(rt.alloc())?;
    items.push(7)?;
    items.push(8)?;
    assert_eq!(rt; items.as_slice(), [7, 8].as_slice());
    Ok(())
}
