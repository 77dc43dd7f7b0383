//! What is true of the simple walks of any graph.

ghost use Rattle.std.specs.Prelude.{ℕ, Bool};
ghost use Rattle.std.specs.Cmp.Lexicographic.{slice_cmp};
ghost use Rattle.std.specs.Ordering.{nat_cmp};
ghost use Rattle.std.specs.List.Sorted.{IsStrictlySortedBy};
ghost use Rattle.walk_simple.specs.SimpleWalks.{simple_walks};

/// The simple walks rise in lexicographic order, so that each is there once.
pub fn simple_walks_rise()
    ensures { (edge : ℕ → ℕ → Bool) (size a b most : ℕ) → IsStrictlySortedBy (slice_cmp nat_cmp) (simple_walks edge size a b most) }
{}
