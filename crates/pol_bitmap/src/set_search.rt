// The bits of a set, found among its nodes.
ghost use Rattle.std.specs.Prelude.{◌≡◌, ◌↔◌, ◌≤◌, ◌<◌, ◌+◌, IfSome, IfNone, IsTrue, All, Contains, length, take, slice_get};
ghost use Rattle.pol_bitmap.specs.Nodes.{bits_of, IsLeastFrom};
ghost use Rattle.pol_bitmap.specs.Sets.{IsSet};

use crate::node::{Node, has_bit_of, next_in};

/// How many nodes end at or below a bit.
fn place_of(nodes: &[Node], bit: u32) -> usize
    requires { IsSet nodes.now }
    ensures bound { result ≤ length nodes.now }
    ensures before { All (λ c. c < bit) (bits_of (take result nodes.now)) }
    ensures after { IfSome (slice_get nodes.now result) (λ n. bit < n.start + 64) }
{
    let start = bit - bit % 64;
    nodes.partition_point(|node| node.start < start)
}

/// Whether a set has a bit.
pub fn has_of(nodes: &[Node], bit: u32) -> bool
    requires { IsSet nodes.now }
    ensures { IsTrue result ↔ Contains (bits_of nodes.now) bit }
{
    let place = place_of(nodes, bit);
    place < nodes.len() && has_bit_of(nodes[place], bit)
}

/// The least bit of a set at or above a bit.
pub fn next_of(nodes: &[Node], bit: u32) -> Option<u32>
    requires { IsSet nodes.now }
    ensures some { IfSome result (IsLeastFrom (bits_of nodes.now) bit) }
    ensures none { IfNone result (All (λ c. c < bit) (bits_of nodes.now)) }
{
    for i in place_of(nodes, bit)..nodes.len() {
        match next_in(nodes[i], bit) {
            Some(found) => return Some(found),
            None => {}
        }
    }
    None
}

/// The number of bits of a set.
pub fn count_of(nodes: &[Node]) -> u64
    requires { IsSet nodes.now }
    ensures { result ≡ length (bits_of nodes.now) }
{
    let mut total = 0;
    for node in nodes {
        total += node.map.count_ones() as u64;
    }
    total
}
