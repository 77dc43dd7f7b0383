//! A bitmap in the buffer.

ghost use Rattle.std.specs.Prelude.{◌≡◌, ◌↔◌, ◌<◌, ◌≤◌, ◌+◌, ◌*◌, ◌%◌, ◌∷◌, [], ℕ, false, IsTrue, IfSome, IfNone, IfOk, OnOk, Some, None, length, slice_get, take};
ghost use Rattle.std.specs.List.{All, Contains};
ghost use Rattle.pol_bitmap.specs.Nodes.{HasBitmap, bitmap_size, bitmap_in, bits_of, IsLeastFrom, IsRisingFrom};
ghost use Rattle.pol_cursor.specs.Outcome.{Answers};
ghost use Rattle.pol_bitmap.specs.Bitmap.{bitmap_at};

use crate::bits::Bits;
use crate::causes::{count_cause, highbit_cause, unit_cause};
use crate::node::{Node, has_bit_of, next_in};
use crate::reading::pass_nodes;
use pol_cursor::{Cursor, refuse, u32_in, u64_in};
use pol_fields::Fault;
use pol_fields::fields::{BITMAP_COUNT, BITMAP_HIGHBIT, BITMAP_UNIT};
use std::marker::Model;

/// A bitmap as it stands in the buffer of a policy. Contracts see the list of its nodes, and by `bits_of` the rising list of
/// its bits, each a `u32`.
#[derive(Drop)]
pub struct BitmapView<'a> {
    bytes: &'a [u8],
    place: u32,
}

impl<'a> Model for BitmapView<'a> {
    ghost use Rattle.std.specs.Prelude.{List};
    ghost use Rattle.pol_bitmap.specs.declared.node.Node.{Node};
    ghost use Rattle.pol_bitmap.specs.Nodes.{bitmap_in, HasBitmap};

    ghost Value = { List Node };

    ghost view = { λ v. bitmap_in v.bytes.now v.place };

    ghost invariant = { λ v. HasBitmap v.bytes.now v.place };
}

impl<'a> BitmapView<'a> {
    /// Reads the bitmap at the cursor, which then stands behind it. Takes no memory. The error is the first fault: `Short`,
    /// `BadMapUnit`, `BadHighbit`, `BadCount`, `BadStart` or `ZeroMap`.
    pub fn read(c: &mut Cursor<'a>) -> Result<BitmapView<'a>, Fault>
        ensures exact { Answers (λ v. v) result (bitmap_at None) c.old c.new }
        ensures stands { IfOk result (λ v. HasBitmap c.old.bytes c.old.place × (v ≡ bitmap_in c.old.bytes c.old.place)) }
        ensures next { OnOk result (c.new.place ≡ c.old.place + bitmap_size c.old.bytes c.old.place) }
    {
        read_bitmap(c, None)
    }

    /// Reads a bitmap all of whose bits have to be below the limit, as `read` does. The error is the first fault: one of those
    /// of `read`, or `MapBitOut`, at the first map with another bit.
    pub fn read_below(c: &mut Cursor<'a>, limit: u32) -> Result<BitmapView<'a>, Fault>
        ensures exact { Answers (λ v. v) result (bitmap_at (Some limit)) c.old c.new }
        ensures stands { IfOk result (λ v. HasBitmap c.old.bytes c.old.place × (v ≡ bitmap_in c.old.bytes c.old.place)) }
        ensures next { OnOk result (c.new.place ≡ c.old.place + bitmap_size c.old.bytes c.old.place) }
    {
        read_bitmap(c, Some(limit))
    }

    /// The bitmap at a place that has one, as a reader has found. It reads nothing again.
    pub fn at(bytes: &'a [u8], place: u32) -> BitmapView<'a>
        requires { HasBitmap bytes.now place }
        ensures { result ≡ bitmap_in bytes.now place }
    {
        BitmapView { bytes, place }
    }

    /// The number of bytes that it takes.
    #[tactic(auto, using(crate::proofs::NodePlaces::length_nodes_in))]
    pub fn size(&self) -> u32
        ensures { result ≡ 12 + 12 * length self.now }
    {
        12 + 12 * u32_in(self.bytes, self.place as usize + 8)
    }

    /// The number of nodes.
    #[tactic(auto, using(crate::proofs::NodePlaces::length_nodes_in))]
    pub fn node_count(&self) -> u32
        ensures all { result ≡ length self.now }
        ensures rising { IsRisingFrom 0 self.now }
    {
        u32_in(self.bytes, self.place as usize + 8)
    }

    /// The node of that number, counted from 0. Its start is a multiple of 64.
    #[tactic(auto, using(crate::proofs::NodePlaces::length_nodes_in, crate::proofs::NodePlaces::get_nodes_in))]
    pub fn node(&self, i: u32) -> Node
        requires { i < length self.now }
        ensures is { slice_get self.now i ≡ Some result }
        ensures whole { result.start % 64 ≡ 0 }
    {
        let place = self.place as usize + 12 + 12 * i as usize;
        Node {
            start: u32_in(self.bytes, place),
            map: u64_in(self.bytes, place + 4),
        }
    }

    /// The number of bits. It goes through the nodes.
    pub fn count(&self) -> u64
        ensures { result ≡ length (bits_of self.now) }
    {
        let mut total = 0;
        for i in 0..self.node_count() {
            total += self.node(i).map.count_ones() as u64;
        }
        total
    }

    /// The bits, rising. All of them come in a time that is linear in the nodes and the bits.
    pub fn bits(&self) -> Bits<'a>
        ensures { result ≡ bits_of self.now }
    {
        Bits::new(BitmapView {
            bytes: self.bytes,
            place: self.place,
        })
    }

    // How many nodes end at or below a bit, found by halves.
    fn place_of(&self, bit: u32) -> u32
        ensures rising { IsRisingFrom 0 self.now }
        ensures bound { result ≤ length self.now }
        ensures before { All (λ c. c < bit) (bits_of (take result self.now)) }
        ensures after { IfSome (slice_get self.now result) (λ n. bit < n.start + 64) }
    {
        let start = bit - bit % 64;
        let mut low = 0;
        let mut high = self.node_count();
        'halves: while low < high {
            let middle = low + (high - low) / 2;
            if self.node(middle).start < start {
                low = middle + 1;
            } else {
                high = middle;
            }
        }
        low
    }

    /// The least bit at or above a bit, and `None` exactly where there is none. It takes as many steps as the number of nodes
    /// has binary digits.
    pub fn next_from(&self, bit: u32) -> Option<u32>
        ensures some { IfSome result (IsLeastFrom (bits_of self.now) bit) }
        ensures none { IfNone result (All (λ c. c < bit) (bits_of self.now)) }
    {
        // no node is empty, so this is the node of the bit that is found, or the one before it
        for i in self.place_of(bit)..self.node_count() {
            match next_in(self.node(i), bit) {
                Some(found) => return Some(found),
                None => {}
            }
        }
        None
    }

    /// Whether a bit is there. It takes as many steps as the number of nodes has binary digits.
    pub fn has(&self, bit: u32) -> bool
        ensures { IsTrue result ↔ Contains (bits_of self.now) bit }
    {
        let place = self.place_of(bit);
        place < self.node_count() && has_bit_of(self.node(place), bit)
    }
}

/// Reads a bitmap whose bits have a limit or none.
#[tactic(auto, unfolding(crate::specs::Bitmap::bitmap_at), using(pol_cursor::proofs::Facts::number_is))]
fn read_bitmap<'a>(c: &mut Cursor<'a>, limit: Option<u32>) -> Result<BitmapView<'a>, Fault>
    ensures exact { Answers (λ v. v) result (bitmap_at limit) c.old c.new }
    ensures stands { IfOk result (λ v. HasBitmap c.old.bytes c.old.place × (v ≡ bitmap_in c.old.bytes c.old.place)) }
    ensures next { OnOk result (c.new.place ≡ c.old.place + bitmap_size c.old.bytes c.old.place) }
{
    let bytes = c.bytes();
    let first = c.place();
    let unit = c.u32(BITMAP_UNIT)?;
    refuse(unit_cause(unit), first, BITMAP_UNIT)?;
    let place = c.place();
    let highbit = c.u32(BITMAP_HIGHBIT)?;
    refuse(highbit_cause(highbit), place, BITMAP_HIGHBIT)?;
    let place = c.place();
    let count = c.u32(BITMAP_COUNT)?;
    refuse(count_cause(highbit, count), place, BITMAP_COUNT)?;
    pass_nodes(c, limit, highbit, count)?;
    Ok(BitmapView {
        bytes,
        place: first,
    })
}
