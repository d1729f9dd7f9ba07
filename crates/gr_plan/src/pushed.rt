// The hits of a block, from its scores.
ghost use Rattle.std.specs.Prelude.{◌≡◌, ◌<◌, ◌≤◌, ◌+◌, ◌*◌, ◌^◌, ◌++◌, OnOk};
ghost use Rattle.std.specs.List.{AllByRecursion};
ghost use Rattle.gr_columns.specs.declared.places.TheConstants.{BLOCK_CELLS};
ghost use Rattle.gr_plan.specs.Inside.Planes.{hits_in};

use crate::planes::{Planes, digit, found, score_at};
use gr_base::{NoMemory, RecordId};
use gr_columns::BLOCK_CELLS;
use gr_hits::HitList;

/// Appends the hits of a block, if it has any.
pub(crate) fn push_block(hits: &mut HitList, block: u32, scores: Planes) -> Result<(), NoMemory>
    requires later { AllByRecursion (λ hit. hit.0.0 < BLOCK_CELLS * block) hits.old }
    requires within { BLOCK_CELLS * block + BLOCK_CELLS ≤ 2 ^ 32 }
    ensures { OnOk result (hits.new ≡ hits.old ++ hits_in (BLOCK_CELLS * block) scores BLOCK_CELLS) }
{
    let found = found(scores);
    if found == 0 {
        return Ok(());
    }
    for place in 0..BLOCK_CELLS {
        if digit(found, place) == 1 {
            hits.push(
                RecordId(BLOCK_CELLS * block + place),
                score_at(scores, place),
            )?;
        }
    }
    Ok(())
}
