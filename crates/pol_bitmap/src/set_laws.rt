//! A set is its bits.

ghost use Rattle.std.specs.Prelude.{◌≡◌, ◌<◌, ◌^◌, All, List};
ghost use Rattle.std.specs.List.Sorted.{IsStrictlyIncreasing};
ghost use Rattle.pol_bitmap.specs.declared.node.Node.{Node};
ghost use Rattle.pol_bitmap.specs.Nodes.{bits_of};
ghost use Rattle.pol_bitmap.specs.Sets.{IsSet, HasSameBits};

/// Sets with the same bits are equal, and the list of a set's bits strictly rises, each a `u32`.
pub fn sets_are_their_bits()
    ensures same { (a b : List Node) → IsSet a → IsSet b → HasSameBits (bits_of a) (bits_of b) → a ≡ b }
    ensures rising { (a : List Node) → IsSet a → IsStrictlyIncreasing (bits_of a) }
    ensures fits { (a : List Node) → IsSet a → All (λ bit. bit < 2 ^ 32) (bits_of a) }
{}
