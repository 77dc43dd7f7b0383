// Two sets gone through together, 64 bits at a step.
ghost use Rattle.std.specs.Prelude.{◌≡◌, ◌↔◌, ◌≤◌, ◌<◌, ◌+◌, ◌%◌, ℕ, IfOk, IsTrue, length, bit_or};
ghost use Rattle.pol_bitmap.specs.Nodes.{bits_of, IsRisingFrom};
ghost use Rattle.pol_bitmap.specs.Sets.{IsSet, IsCut, IsUnion, IsCommon, IsDifference, ShareBit, ContainsEach};

use crate::node::Node;
use std::alloc::{AllocError, Global};

/// What two sets have in the first 64 bits that either has, and both sets above them.
#[derive(Clone, Copy)]
struct Cut<'a> {
    start: u32,
    left: u64,
    right: u64,
    left_rest: &'a [Node],
    right_rest: &'a [Node],
}

/// Cuts two sets, neither of them empty, at the lower of their first nodes.
#[tactic(auto, using(std::proofs::lemmas::Nat::le_or_l))]
fn first_cut<'a>(left: &'a [Node], right: &'a [Node]) -> Cut<'a>
    requires left_set { IsSet left.now }
    requires right_set { IsSet right.now }
    requires left_more { 0 < length left.now }
    requires right_more { 0 < length right.now }
    ensures left_is { IsCut left.now result.start result.left result.left_rest.now }
    ensures right_is { IsCut right.now result.start result.right result.right_rest.now }
    ensures whole { result.start % 64 ≡ 0 }
    ensures some { 0 < bit_or result.left result.right }
    ensures above { (least : ℕ) → IsRisingFrom least left.now → IsRisingFrom least right.now → least ≤ result.start }
    ensures shorter { length result.left_rest.now + length result.right_rest.now < length left.now + length right.now }
{
    let x = left[0];
    let y = right[0];
    if x.start < y.start {
        Cut {
            start: x.start,
            left: x.map,
            right: 0,
            left_rest: &left[1..],
            right_rest: right,
        }
    } else if y.start < x.start {
        Cut {
            start: y.start,
            left: 0,
            right: y.map,
            left_rest: left,
            right_rest: &right[1..],
        }
    } else {
        Cut {
            start: x.start,
            left: x.map,
            right: y.map,
            left_rest: &left[1..],
            right_rest: &right[1..],
        }
    }
}

/// The nodes of the bits of either set.
pub fn union_of(alloc: Global, left: &[Node], right: &[Node]) -> Result<Vec<Node>, AllocError>
    requires left_set { IsSet left.now }
    requires right_set { IsSet right.now }
    ensures set { IfOk result (λ v. IsSet v.items) }
    ensures bits { IfOk result (λ v. IsUnion (bits_of left.now) (bits_of right.now) (bits_of v.items)) }
{
    let mut out = Vec::new(alloc);
    let mut a = left;
    let mut b = right;
    'merge: while !a.is_empty() && !b.is_empty() {
        let cut = first_cut(a, b);
        out.push(Node {
            start: cut.start,
            map: cut.left | cut.right,
        })?;
        a = cut.left_rest;
        b = cut.right_rest;
    }
    out.extend_from_slice(a)?;
    out.extend_from_slice(b)?;
    Ok(out)
}

/// The nodes of the bits of both sets.
pub fn common_of(alloc: Global, left: &[Node], right: &[Node]) -> Result<Vec<Node>, AllocError>
    requires left_set { IsSet left.now }
    requires right_set { IsSet right.now }
    ensures set { IfOk result (λ v. IsSet v.items) }
    ensures bits { IfOk result (λ v. IsCommon (bits_of left.now) (bits_of right.now) (bits_of v.items)) }
{
    let mut out = Vec::new(alloc);
    let mut a = left;
    let mut b = right;
    'merge: while !a.is_empty() && !b.is_empty() {
        let cut = first_cut(a, b);
        let map = cut.left & cut.right;
        if map != 0 {
            out.push(Node {
                start: cut.start,
                map,
            })?;
        }
        a = cut.left_rest;
        b = cut.right_rest;
    }
    Ok(out)
}

/// The nodes of the bits of the left set that the right one has not.
pub fn difference_of(alloc: Global, left: &[Node], right: &[Node]) -> Result<Vec<Node>, AllocError>
    requires left_set { IsSet left.now }
    requires right_set { IsSet right.now }
    ensures set { IfOk result (λ v. IsSet v.items) }
    ensures bits { IfOk result (λ v. IsDifference (bits_of left.now) (bits_of right.now) (bits_of v.items)) }
{
    let mut out = Vec::new(alloc);
    let mut a = left;
    let mut b = right;
    'merge: while !a.is_empty() && !b.is_empty() {
        let cut = first_cut(a, b);
        let map = cut.left & !cut.right;
        if map != 0 {
            out.push(Node {
                start: cut.start,
                map,
            })?;
        }
        a = cut.left_rest;
        b = cut.right_rest;
    }
    out.extend_from_slice(a)?;
    Ok(out)
}

/// Whether some bit is in both sets.
pub fn meets_of(left: &[Node], right: &[Node]) -> bool
    requires left_set { IsSet left.now }
    requires right_set { IsSet right.now }
    ensures { IsTrue result ↔ ShareBit (bits_of left.now) (bits_of right.now) }
{
    let mut a = left;
    let mut b = right;
    'merge: while !a.is_empty() && !b.is_empty() {
        let cut = first_cut(a, b);
        if cut.left & cut.right != 0 {
            return true;
        }
        a = cut.left_rest;
        b = cut.right_rest;
    }
    false
}

/// Whether each bit of the right set is in the left one.
pub fn contains_of(left: &[Node], right: &[Node]) -> bool
    requires left_set { IsSet left.now }
    requires right_set { IsSet right.now }
    ensures { IsTrue result ↔ ContainsEach (bits_of left.now) (bits_of right.now) }
{
    let mut a = left;
    let mut b = right;
    'merge: while !a.is_empty() && !b.is_empty() {
        let cut = first_cut(a, b);
        if cut.right & !cut.left != 0 {
            return false;
        }
        a = cut.left_rest;
        b = cut.right_rest;
    }
    b.is_empty()
}
