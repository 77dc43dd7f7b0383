// What sets have, each law claimed by a function that does nothing.
ghost use Rattle.std.specs.Prelude.{◌≡◌, ◌↔◌, ℕ, ◌<◌, ◌^◌, List, Contains};
ghost use Rattle.std.specs.List.{All};
ghost use Rattle.std.specs.List.Sorted.{IsStrictlyIncreasing};
ghost use Rattle.pol_bitmap.specs.declared.Node.{Node};
ghost use Rattle.pol_bitmap.specs.Nodes.{bits_of};
ghost use Rattle.pol_bitmap.specs.Sets.{IsSet};
ghost use Rattle.set_nodes.specs.SetNodes.{set_of, set_of_values};

/// The set of bits that rise has just these bits, in the one form of a set, and no other bitmap in that form has them.
pub fn sets_have_their_bits()
    ensures set { (bits : List ℕ) → IsStrictlyIncreasing bits → All (λ bit. bit < 2 ^ 32) bits → IsSet (set_of bits) }
    ensures bits { (bits : List ℕ) → IsStrictlyIncreasing bits → All (λ bit. bit < 2 ^ 32) bits → bits_of (set_of bits) ≡ bits }
    ensures one { (bits : List ℕ) (nodes : List Node) → IsSet nodes → bits_of nodes ≡ bits → nodes ≡ set_of bits }
{}

/// The set of numbers in any order has each of them and no other bit, and no other bitmap in the form of a set has just these.
pub fn sets_have_their_values()
    ensures set { (values : List ℕ) → All (λ value. value < 2 ^ 32) values → IsSet (set_of_values values) }
    ensures bits { (values : List ℕ) (bit : ℕ) → All (λ value. value < 2 ^ 32) values → Contains (bits_of (set_of_values values)) bit ↔ Contains values bit }
    ensures one { (values : List ℕ) (nodes : List Node) → IsSet nodes → ((bit : ℕ) → Contains (bits_of nodes) bit ↔ Contains values bit) → nodes ≡ set_of_values values }
{}
