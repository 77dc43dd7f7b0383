// The nodes of a set, made of its bits.
ghost use Rattle.std.specs.Prelude.{◌≡◌, ◌↔◌, ◌<◌, ◌∷◌, ◌++◌, [], IfOk, OnOk, IsTrue, All};
ghost use Rattle.std.specs.List.Sorted.{IsStrictlyIncreasing};
ghost use Rattle.pol_bitmap.specs.Nodes.{bits_of};
ghost use Rattle.pol_bitmap.specs.Sets.{IsSet};

use crate::node::Node;
use std::alloc::{AllocError, Global};

/// Whether each number is above the one before.
pub fn rises(bits: &[u32]) -> bool
    ensures { IsTrue result ↔ IsStrictlyIncreasing bits.now }
{
    bits.is_sorted_by(|a, b| a < b)
}

/// The nodes of bits that rise.
pub fn nodes_from(alloc: Global, bits: &[u32]) -> Result<Vec<Node>, AllocError>
    requires { IsStrictlyIncreasing bits.now }
    ensures set { IfOk result (λ v. IsSet v.items) }
    ensures bits { IfOk result (λ v. bits_of v.items ≡ bits.now) }
{
    let mut nodes = Vec::new(alloc);
    for bit in bits {
        add_bit(&mut nodes, *bit)?;
    }
    Ok(nodes)
}

/// Adds a bit above all that are there.
fn add_bit(nodes: &mut Vec<Node>, bit: u32) -> Result<(), AllocError>
    requires set { IsSet nodes.old.items }
    requires above { All (λ c. c < bit) (bits_of nodes.old.items) }
    ensures set { OnOk result (IsSet nodes.new.items) }
    ensures bits { OnOk result (bits_of nodes.new.items ≡ bits_of nodes.old.items ++ bit ∷ []) }
{
    let start = bit - bit % 64;
    let map = 1 << (bit % 64);
    let count = nodes.len();
    if count == 0 || nodes[count - 1].start < start {
        nodes.push(Node { start, map })?;
        return Ok(());
    }
    nodes[count - 1].map |= map;
    Ok(())
}
