// Sets of nodes, with the cases first that need no new set.
ghost use Rattle.std.specs.Prelude.{◌≡◌, ◌∷◌, [], IfOk};
ghost use Rattle.pol_bitmap.specs.Nodes.{bits_of};
ghost use Rattle.pol_bitmap.specs.Sets.{IsDifference, IsUnion};

use pol_bitmap::Set;
use std::alloc::{AllocError, Global};

/// The nodes of either set.
pub fn either(alloc: Global, some: Set, others: Set) -> Result<Set, AllocError>
    ensures { IfOk result (λ set. IsUnion (bits_of some) (bits_of others) (bits_of set)) }
{
    if others.nodes().is_empty() {
        return Ok(some);
    }
    if some.nodes().is_empty() {
        return Ok(others);
    }
    some.union(alloc, &others)
}

/// The set without a node.
pub fn without(alloc: Global, set: Set, node: u32) -> Result<Set, AllocError>
    ensures { IfOk result (λ left. IsDifference (bits_of set) (node ∷ []) (bits_of left)) }
{
    if !set.has(node) {
        return Ok(set);
    }
    let alone = Set::from_rising(alloc, &[node])?;
    set.difference(alloc, &alone)
}
