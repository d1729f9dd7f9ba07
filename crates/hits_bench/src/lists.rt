// The lists that are measured.
use super::timed::Failed;
use gr_base::RecordId;
use gr_hits::HitList;
use std::alloc::Global;

/// So many hits, whose ids lie 1 to `gap` apart by chance.
pub fn by_chance(alloc: Global, count: u32, gap: u32, seed: u64) -> Result<HitList, Failed> {
    let mut list = HitList::new(alloc);
    let mut seed = seed;
    let mut next = 1u32;
    'hits: for _ in 0..count {
        seed = seed
            .wrapping_mul(6_364_136_223_846_793_005)
            .wrapping_add(1_442_695_040_888_963_407);
        let id = next.saturating_add((seed >> 33) as u32 % gap.max(1));
        if id == u32::MAX {
            return Ok(list);
        }
        list.push(RecordId(id), 1 + (seed >> 60) as u32)?;
        next = id + 1;
    }
    Ok(list)
}
