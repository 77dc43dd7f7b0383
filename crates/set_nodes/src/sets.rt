// Sets by their bits.
ghost use Rattle.std.specs.Prelude.{◌≡◌, IfOk};
ghost use Rattle.std.specs.List.Sorted.{IsStrictlyIncreasing};
ghost use Rattle.set_nodes.specs.SetNodes.{set_of, first_bits, set_of_values};

use pol_bitmap::Set;
use std::alloc::{AllocError, Global};

/// The set of bits that rise.
pub fn set_of(alloc: Global, bits: &[u32]) -> Result<Set, AllocError>
    requires { IsStrictlyIncreasing bits.now }
    ensures { IfOk result (λ set. set ≡ set_of bits.now) }
{
    Set::from_rising(alloc, bits)
}

/// The set of the first bits, so many.
#[tactic(auto, unfolding(crate::specs::SetNodes::first_bits))]
pub fn first_bits(alloc: Global, count: u32) -> Result<Set, AllocError>
    ensures { IfOk result (λ set. set ≡ first_bits count) }
{
    let mut bits = Vec::new(alloc);
    for bit in 0..count {
        bits.push(bit)?;
    }
    set_of(alloc, &bits)
}

/// The set of numbers in any order. The time is that of a sort.
pub fn set_of_values(alloc: Global, values: Vec<u32>) -> Result<Set, AllocError>
    ensures { IfOk result (λ set. set ≡ set_of_values values.items) }
{
    Set::from_values(alloc, values)
}
