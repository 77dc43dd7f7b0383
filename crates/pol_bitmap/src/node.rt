//! A node of a bitmap: 64 bits from a place on.

ghost use Rattle.std.specs.Prelude.{◌≡◌, ◌<◌, ◌%◌, ◌∷◌, IfSome, IfNone};
ghost use Rattle.std.specs.List.{All};
ghost use Rattle.pol_bitmap.specs.Nodes.{node_bits, node_has, IsLeastFrom};

/// 64 bits of a bitmap, from the start on: bit i of the map stands for the bit `start + i`.
#[derive(Clone, Copy, Debug, PartialEq, Eq, Hash)]
pub struct Node {
    pub start: u32,
    pub map: u64,
}

/// Whether a node has a bit.
pub fn has_bit_of(node: Node, bit: u32) -> bool
    ensures { result ≡ node_has bit node }
{
    node.start <= bit && bit - node.start < 64 && (node.map >> (bit - node.start)) % 2 == 1
}

/// The least bit of a node at or above a bit.
#[tactic(auto, using(crate::proofs::Shifts::none_behind, crate::proofs::Shifts::none_shifted))]
pub fn next_in(node: Node, bit: u32) -> Option<u32>
    requires { node.start % 64 ≡ 0 }
    ensures some { IfSome result (IsLeastFrom (node_bits node) bit) }
    ensures none { IfNone result (All (λ c. c < bit) (node_bits node)) }
{
    let skipped = bit.saturating_sub(node.start);
    if skipped >= 64 {
        return None;
    }
    let left = node.map >> skipped;
    if left == 0 {
        return None;
    }
    Some(node.start + skipped + left.trailing_zeros())
}

/// The lowest bit of a node that has one, and the node without it.
pub fn split_lowest(node: Node) -> (u32, Node)
    requires whole { node.start % 64 ≡ 0 }
    requires full { 0 < node.map }
    ensures bits { node_bits node ≡ result.0 ∷ node_bits result.1 }
    ensures start { result.1.start ≡ node.start }
{
    let lowest = node.map.trailing_zeros();
    let rest = Node {
        start: node.start,
        map: node.map & !(1 << lowest),
    };
    (node.start + lowest, rest)
}
