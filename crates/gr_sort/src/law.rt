// A law of the order of hits.
ghost use Rattle.std.specs.Prelude.{List, IsPermutation, IsSorted};
ghost use Rattle.gr_expr.specs.Tables.{Records};
ghost use Rattle.gr_print.specs.Block.{Hit};
ghost use Rattle.gr_sort.specs.Order.{hit_cmp, ordered};
ghost use Rattle.gr_sort.specs.declared.keys.SortKey.{SortKey};

/// A law: hits in the order of their keys are the same hits, and none is less than the one before it.
pub fn order_keeps_and_sorts()
    ensures same { (tables : List Records) (keys : List SortKey) (hits : List Hit) → IsPermutation hits (ordered tables keys hits) }
    ensures sorted { (tables : List Records) (keys : List SortKey) (hits : List Hit) → IsSorted (hit_cmp tables keys) (ordered tables keys hits) }
{}
