//! Each value has its expansion in the list of all.

ghost use Rattle.std.specs.Prelude.{◌≡◌, ◌≤◌, ℕ, List, length};
ghost use Rattle.pol_bitmap.specs.declared.node.Node.{Node};
ghost use Rattle.pol_expand.specs.Expansion.{expand_by, expand_all, expansion_of};

/// What a value with a row expands to, by the list of all expansions.
pub fn expansions_stand_by_value()
    ensures { (rows : List (List Node)) (attributes types : List Node) (value : ℕ) → 1 ≤ value → value ≤ length rows → expansion_of (expand_all rows attributes types) value ≡ expand_by rows attributes types value }
{}
