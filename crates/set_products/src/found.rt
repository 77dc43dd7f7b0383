// Bits of a set by their index.
ghost use Rattle.std.specs.Prelude.{◌≡◌, ℕ, ◌+◌, ◌<◌, Some, All, IfSome, IfNone, drop, length, slice_get};
ghost use Rattle.pol_bitmap.specs.Nodes.{bits_of, IsLeastFrom};
ghost use Rattle.pol_bitmap.specs.Sets.{IsSet};

use pol_bitmap::{Node, Set, SetBits};

/// The bit that comes after a bit of a set, or `None` after the last one.
pub fn bit_after(set: &Set, bit: u32) -> Option<u32>
    requires { IsSet set.now }
    ensures { (i : ℕ) → slice_get (bits_of set.now) i ≡ Some bit → slice_get (bits_of set.now) (i + 1) ≡ result }
{
    match bit.checked_add(1) {
        Some(from) => next_from(set, from),
        None => None,
    }
}

// The least bit of a set at or above a bit, or `None` where there is none.
fn next_from(set: &Set, bit: u32) -> Option<u32>
    ensures some { IfSome result (IsLeastFrom (bits_of set.now) bit) }
    ensures none { IfNone result (All (λ c. c < bit) (bits_of set.now)) }
{
    match next_close(set.nodes(), bit) {
        Some(found) => Some(found),
        None => set.next_from(bit),
    }
}

// The least bit from a bit on without a search, where it is among the 64 bits of that bit, and a node has each 64 before these.
fn next_close(nodes: &[Node], bit: u32) -> Option<u32>
    requires { IsSet nodes.now }
    ensures { IfSome result (IsLeastFrom (bits_of nodes.now) bit) }
{
    let Some(node) = nodes.get(bit as usize / 64) else {
        return None;
    };
    let left = node.map >> (bit % 64);
    if node.start != bit - bit % 64 || left == 0 {
        return None;
    }
    Some(bit + left.trailing_zeros())
}

/// The bit of a set that has `n` bits before it.
pub fn nth_bit(set: &Set, n: u64) -> u32
    requires { n < length (bits_of set.now) }
    ensures { slice_get (bits_of set.now) n ≡ Some result }
{
    let Some(bit) = set.bits().nth(n as usize) else {
        unreachable!()
    };
    bit
}

/// The bits of a set from one of them on.
pub fn bits_from(set: &Set, bit: u32) -> SetBits<'_>
    requires { IsSet set.now }
    ensures { (i : ℕ) → slice_get (bits_of set.now) i ≡ Some bit → result ≡ drop i (bits_of set.now) }
{
    let mut left = set.bits();
    for found in set.bits() {
        if found == bit {
            return left;
        }
        let _ = left.next();
    }
    left
}
