//! What is true of the shortest walks of any graph.

ghost use Rattle.std.specs.Prelude.{◌≡◌, ℕ, Bool, List};
ghost use Rattle.std.specs.Cmp.Lexicographic.{slice_cmp};
ghost use Rattle.std.specs.Ordering.{nat_cmp};
ghost use Rattle.std.specs.List.Sorted.{IsStrictlySortedBy};
ghost use Rattle.walk_enum.specs.Walks.{least_walks};
ghost use Rattle.walk_enum.specs.Moving.{IsListing};

/// The walks that `first_walk` and then `next_walk` give, until it answers false, are all the walks in their order.
pub fn listings_are_complete()
    ensures { (all seen : List (List ℕ)) → IsListing all seen → seen ≡ all }
{}

/// The shortest walks rise in lexicographic order, so that each is there once.
pub fn walks_rise()
    ensures { (edge : ℕ → ℕ → Bool) (size a b : ℕ) → IsStrictlySortedBy (slice_cmp nat_cmp) (least_walks edge size a b) }
{}
