//! The bits of a set, one after the other.

ghost use Rattle.std.specs.Prelude.{◌≡◌, ◌<◌, ◌%◌, Some, length, slice_get};
ghost use Rattle.std.specs.Iterator.{YieldsFirst, item_count};
ghost use Rattle.pol_bitmap.specs.Nodes.{bits_of, IsRisingFrom};
ghost use Rattle.pol_bitmap.specs.Sets.{IsSet};

use crate::node::{Node, split_lowest};
use std::marker::Model;

/// The bits of a set, rising. Contracts see the list of those that are left.
///
/// What is left is the map of the current node and the nodes from the next one on.
#[derive(Drop)]
pub struct SetBits<'a> {
    nodes: &'a [Node],
    next: usize,
    current: Node,
}

impl<'a> Model for SetBits<'a> {
    ghost use Rattle.std.specs.Prelude.{◌≡◌, ℕ, ◌%◌, ◌++◌, List, drop};
    ghost use Rattle.pol_bitmap.specs.Nodes.{node_bits, bits_of, IsRisingFrom};

    ghost Value = { List ℕ };

    ghost view = { λ b. node_bits b.current ++ bits_of (drop b.next b.nodes.now) };

    ghost invariant = { λ b. (b.current.start % 64 ≡ 0) × IsRisingFrom 0 b.nodes.now };
}

impl<'a> SetBits<'a> {
    /// The bits of nodes, all of them.
    #[tactic(auto, using(crate::proofs::LowestBits::no_bits))]
    pub(crate) fn new(nodes: &'a [Node]) -> SetBits<'a>
        requires { IsSet nodes.now }
        ensures { result ≡ bits_of nodes.now }
    {
        SetBits {
            nodes,
            next: 0,
            current: Node { start: 0, map: 0 },
        }
    }
}

impl<'a> Iterator for SetBits<'a> {
    type Item = u32;

    ghost next_gives = { YieldsFirst (λ rest. rest) };

    ghost remaining = { item_count (λ rest. rest) };

    #[tactic(auto, using(crate::proofs::LowestBits::nothing_left))]
    fn next(&mut self) -> Option<u32> {
        if self.current.map == 0 {
            if self.next >= self.nodes.len() {
                return None;
            }
            self.current = node_at(self.nodes, self.next);
            self.next += 1;
        }
        let (bit, rest) = split_lowest(self.current);
        self.current = rest;
        Some(bit)
    }
}

// The node of that number, which is not empty.
fn node_at(nodes: &[Node], i: usize) -> Node
    requires rising { IsRisingFrom 0 nodes.now }
    requires within { i < length nodes.now }
    ensures is { slice_get nodes.now i ≡ Some result }
    ensures whole { result.start % 64 ≡ 0 }
    ensures full { 0 < result.map }
{
    nodes[i]
}
