// Names and rows after a text.
use super::printed::NoRows;
use crate::{OutColumn, OutItem, with_names, with_row};
use gr_base::{Bytes, RecordId};
use std::test::Fail;

#[test]
fn names_and_a_row_stand_after_a_text(rt: HostRuntime) -> Result<(), Fail> {
    let alloc = rt.alloc();
    let name = Bytes::from_string(alloc, String::from_str(alloc, "_score")?)?;
    let columns = [OutColumn {
        name,
        item: OutItem::Score,
    }];
    let text = with_names(Vec::new(alloc), &columns)?;
    let text = with_row(alloc, text, &NoRows, &columns, (RecordId(1), 3))?;
    assert_eq!(rt; text.as_slice(), b"[\"_score\"][3]".as_slice());
    Ok(())
}
