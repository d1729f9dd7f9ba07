// Buffers, and positions in both forms, at the ends of their types.
ghost use Rattle.std.specs.Prelude.{◌≡◌, IfOk};

use super::*;
use gr_base::RecordId;
use std::alloc::Global;
use std::test::Fail;

// A posting of two positions, the second the last that there may be.
fn posting(alloc: Global, term: u32, id: u32, first: u32) -> Result<Posting, Fail>
    ensures { IfOk result (λ p. (p.id.0 ≡ id) × (p.place ≡ u64.MAX)) }
{
    let mut positions = Vec::new(alloc);
    positions.push(u64::from(first))?;
    if first < u32::MAX {
        positions.push(u64::MAX)?;
    }
    Ok(Posting {
        term: RecordId(term),
        id: RecordId(id),
        place: u64::MAX,
        positions: Positions::from_vec(alloc, positions)?,
    })
}

#[test]
fn a_buffer_has_the_postings_of_a_term_by_record(rt: HostRuntime) -> Result<(), Fail> {
    let alloc = rt.alloc();
    let later = posting(alloc, u32::MAX, u32::MAX, 0)?;
    let sooner = posting(alloc, u32::MAX, 0, u32::MAX)?;
    let buffer = buffer_of(Vec::from_array(alloc, [later, sooner])?)?;
    let mut shown = Vec::new(alloc);
    for posting in buffer.all() {
        shown.push((posting.term.0, posting.id.0))?;
    }
    assert_eq!(rt;
        shown.as_slice(),
        [(u32::MAX, 0), (u32::MAX, u32::MAX)].as_slice()
    );
    assert_eq!(rt; buffer.of_term(RecordId(u32::MAX)).len(), 2);
    assert_eq!(rt; buffer.of_term(RecordId(0)).len(), 0);
    Ok(())
}

#[test]
fn positions_are_lent_and_written_by_their_differences(rt: HostRuntime) -> Result<(), Fail> {
    let alloc = rt.alloc();
    let posting = posting(alloc, 1, 2, 300)?;
    let lent = posting.lend().positions.collect::<Vec<u64>>(alloc)?;
    assert_eq!(rt; lent.as_slice(), [300, u64::MAX].as_slice());
    let mut bytes = Vec::new(alloc);
    push_number(&mut bytes, 16_384)?;
    push_positions(&mut bytes, posting.lend().positions)?;
    // 16,384 has three digits of seven bits; then come the count, 300 and the difference
    let wanted = [
        129, 128, 0, 2, 130, 44, 129, 255, 255, 255, 255, 255, 255, 255, 253, 83,
    ];
    assert_eq!(rt; bytes.as_slice(), wanted.as_slice());
    Ok(())
}

#[test]
fn a_single_position_stands_in_place(rt: HostRuntime) -> Result<(), Fail> {
    let alloc = rt.alloc();
    assert_eq!(rt; size_of::<Posting>(), 32);
    let none = Positions::from_vec(alloc, Vec::new(alloc))?;
    assert_eq!(rt; none.as_slice().len(), 0);
    assert_eq!(rt; Positions::one(u64::MAX).as_slice(), [u64::MAX].as_slice());
    Ok(())
}
