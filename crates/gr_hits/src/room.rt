// Appending where the room was taken before.
ghost use Rattle.std.specs.Prelude.{◌≡◌, ◌+◌, ◌<◌, ◌≤◌, ◌++◌, ◌∷◌, [], length, vec_len};
ghost use Rattle.std.specs.Vec.{vec_capacity};
ghost use Rattle.gr_hits.specs.Inside.Parts.{kept};

use gr_base::RecordId;

/// Appends a hit.
#[inline]
pub(crate) fn append_hit(hits: &mut Vec<(RecordId, u32)>, id: RecordId, score: u32)
    requires { vec_len hits.old < vec_capacity hits.old }
    ensures items { hits.new.items ≡ hits.old.items ++ (id, score) ∷ [] }
    ensures len { vec_len hits.new ≡ vec_len hits.old + 1 }
    ensures room { vec_capacity hits.old ≤ vec_capacity hits.new }
{
    match hits.push((id, score)) {
        Ok(()) => {}
        Err(_) => unreachable!(),
    }
}

/// Appends a hit, if the record has a score.
#[inline]
pub(crate) fn append_scored(hits: &mut Vec<(RecordId, u32)>, id: RecordId, score: u32)
    requires { vec_len hits.old < vec_capacity hits.old }
    ensures items { hits.new.items ≡ hits.old.items ++ kept id score [] }
    ensures len { vec_len hits.new ≤ vec_len hits.old + 1 }
    ensures room { vec_capacity hits.old ≤ vec_capacity hits.new }
{
    if score > 0 {
        append_hit(hits, id, score);
    }
}

/// Appends hits.
#[inline]
pub(crate) fn append_hits(hits: &mut Vec<(RecordId, u32)>, more: &[(RecordId, u32)])
    requires { vec_len hits.old + length more.now ≤ vec_capacity hits.old }
    ensures items { hits.new.items ≡ hits.old.items ++ more.now }
    ensures len { vec_len hits.new ≡ vec_len hits.old + length more.now }
    ensures room { vec_capacity hits.old ≤ vec_capacity hits.new }
{
    match hits.extend_from_slice(more) {
        Ok(()) => {}
        Err(_) => unreachable!(),
    }
}
