//! The bits of a bitmap in the buffer, one after the other.

ghost use Rattle.std.specs.Prelude.{◌≡◌};
ghost use Rattle.std.specs.Iterator.{YieldsFirst, item_count};
ghost use Rattle.pol_bitmap.specs.Nodes.{bits_of};

use crate::node::{Node, split_lowest};
use crate::view::BitmapView;
use std::marker::Model;

/// The bits of a bitmap, rising. Contracts see the list of those that are left.
///
/// What is left is the map of the current node and the nodes from the next one on.
#[derive(Drop)]
pub struct Bits<'a> {
    bitmap: BitmapView<'a>,
    next: u32,
    current: Node,
}

impl<'a> Model for Bits<'a> {
    ghost use Rattle.std.specs.Prelude.{◌≡◌, ℕ, ◌%◌, ◌++◌, List, drop};
    ghost use Rattle.pol_bitmap.specs.Nodes.{node_bits, bits_of};

    ghost Value = { List ℕ };

    ghost view = { λ b. node_bits b.current ++ bits_of (drop b.next b.bitmap) };

    ghost invariant = { λ b. b.current.start % 64 ≡ 0 };
}

impl<'a> Bits<'a> {
    /// All the bits.
    #[tactic(auto, using(crate::proofs::LowestBits::no_bits))]
    pub fn new(bitmap: BitmapView<'a>) -> Bits<'a>
        ensures { result ≡ bits_of bitmap.entry }
    {
        Bits {
            bitmap,
            next: 0,
            current: Node { start: 0, map: 0 },
        }
    }
}

impl<'a> Iterator for Bits<'a> {
    type Item = u32;

    ghost next_gives = { YieldsFirst (λ rest. rest) };

    ghost remaining = { item_count (λ rest. rest) };

    #[tactic(auto, using(crate::proofs::LowestBits::nothing_left, crate::proofs::LowestBits::rising_full))]
    fn next(&mut self) -> Option<u32> {
        if self.current.map == 0 {
            if self.next >= self.bitmap.node_count() {
                return None;
            }
            self.current = self.bitmap.node(self.next);
            self.next += 1;
        }
        let (bit, rest) = split_lowest(self.current);
        self.current = rest;
        Some(bit)
    }
}
