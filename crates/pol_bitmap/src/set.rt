//! Sets of bits that are owned and shared.

ghost use Rattle.std.specs.Prelude.{◌≡◌, ◌↔◌, ◌<◌, ℕ, [], IfOk, IfSome, IfNone, IsTrue, All, Contains, length};
ghost use Rattle.std.specs.List.Sorted.{IsStrictlyIncreasing};
ghost use Rattle.pol_bitmap.specs.Nodes.{bits_of, IsLeastFrom};
ghost use Rattle.pol_bitmap.specs.Sets.{IsSet, IsUnion, IsCommon, IsDifference, ShareBit, ContainsEach};

use crate::node::Node;
use crate::set_bits::SetBits;
use crate::set_build::{nodes_from, rises};
use crate::set_error::SetError;
use crate::set_ops::{common_of, contains_of, difference_of, meets_of, union_of};
use crate::set_search::{count_of, has_of, next_of};
use crate::view::BitmapView;
use std::alloc::{AllocError, Global};
use std::hash::{Hash, Hasher};
use std::marker::Model;
use std::rc::Rc;

/// A set of bits, each a `u32`. Sets with the same bits are equal.
///
/// Its nodes may be shared with other sets.
#[derive(Drop)]
pub struct Set {
    nodes: Rc<Vec<Node>>,
}

impl Model for Set {
    ghost use Rattle.std.specs.Prelude.{List};
    ghost use Rattle.pol_bitmap.specs.declared.node.Node.{Node};
    ghost use Rattle.pol_bitmap.specs.Sets.{IsSet};

    ghost Value = { List Node };

    ghost view = { λ s. s.nodes.value.items };

    ghost invariant = { λ s. IsSet s.nodes.value.items };
}

impl PartialEq for Set {
    ghost use Rattle.std.specs.Cmp.Rules.{comparing};
    ghost use Rattle.std.proofs.Common.{rules};
    ghost use Rattle.pol_bitmap.specs.Sets.{nodes_eq};

    ghost eq = { nodes_eq };

    ghost laws = { Prim.search (comparing, rules) };

    fn eq(&self, other: &Set) -> bool {
        self.nodes == other.nodes
    }
}

impl Eq for Set {
    ghost use Rattle.std.specs.Cmp.Rules.{comparing};
    ghost use Rattle.std.proofs.Common.{rules};

    ghost laws = { Prim.search (comparing, rules) };
}

impl Hash for Set {
    ghost use Rattle.std.specs.Prelude.{◌++◌, List};
    ghost use Rattle.std.specs.Hash as fed;
    ghost use Rattle.std.specs.Hash.{items_Alike, and-Alike, on_Alike, same_Alike};
    ghost use Rattle.std.proofs.lemmas.Bool.Decides.{Decides-eqb};
    ghost use Rattle.pol_bitmap.specs.declared.node.Node.{Node};

    ghost hash_input = { fed.slice (λ (n : Node). fed.u32 n.start ++ fed.u64 n.map) };

    ghost respects_eq = { (items_Alike (and-Alike (on_Alike (λ (n : Node). n.start) (same_Alike fed.u32 Decides-eqb)) (on_Alike (λ (n : Node). n.map) (same_Alike fed.u64 Decides-eqb)))).fed };

    fn hash<H: Hasher>(&self, state: &mut H) {
        self.nodes.hash(state);
    }
}

impl Set {
    /// The set with no bit.
    pub fn empty(alloc: Global) -> Result<Set, AllocError>
        ensures form { IfOk result IsSet }
        ensures bits { IfOk result (λ s. bits_of s ≡ []) }
    {
        Set::from_nodes(alloc, Vec::new(alloc))
    }

    /// The bits of a view.
    pub fn from_view(alloc: Global, view: &BitmapView<'_>) -> Result<Set, AllocError>
        ensures form { IfOk result IsSet }
        ensures same { IfOk result (λ s. s ≡ view.now) }
    {
        let mut nodes = Vec::with_capacity(alloc, view.node_count() as usize)?;
        for i in 0..view.node_count() {
            nodes.push(view.node(i))?;
        }
        Set::from_nodes(alloc, nodes)
    }

    /// The bits of a slice, which is to rise strictly: `NotRising` exactly where it does not. It is for bits from outside, which may be in
    /// any order; `from_rising` takes those that are known to rise.
    pub fn from_bits(alloc: Global, bits: &[u32]) -> Result<Set, SetError>
        ensures form { IfOk result IsSet }
        ensures bits { IfOk result (λ s. bits_of s ≡ bits.now) }
        ensures not_rising { (result ≡ Err SetError.NotRising) ↔ ¬ IsStrictlyIncreasing bits.now }
        ensures memory { result ≡ Err SetError.Memory → IsStrictlyIncreasing bits.now }
    {
        if !rises(bits) {
            return Err(SetError::NotRising);
        }
        Ok(Set::from_rising(alloc, bits)?)
    }

    /// The bits of a slice that strictly rises.
    pub fn from_rising(alloc: Global, bits: &[u32]) -> Result<Set, AllocError>
        requires { IsStrictlyIncreasing bits.now }
        ensures form { IfOk result IsSet }
        ensures bits { IfOk result (λ s. bits_of s ≡ bits.now) }
    {
        let nodes = nodes_from(alloc, bits)?;
        Set::from_nodes(alloc, nodes)
    }

    /// The set of some numbers, in any order.
    pub fn from_values(alloc: Global, mut values: Vec<u32>) -> Result<Set, AllocError>
        ensures form { IfOk result IsSet }
        ensures bits { IfOk result (λ s. (bit : ℕ) → Contains (bits_of s) bit ↔ Contains values.items bit) }
    {
        values.sort_unstable();
        values.dedup();
        Set::from_rising(alloc, &values)
    }

    /// The set of these nodes.
    pub fn from_nodes(alloc: Global, nodes: Vec<Node>) -> Result<Set, AllocError>
        requires { IsSet nodes.items }
        ensures { IfOk result (λ s. s ≡ nodes.items) }
    {
        Ok(Set {
            nodes: Rc::new(alloc, nodes)?,
        })
    }

    /// Whether a bit is there.
    pub fn has(&self, bit: u32) -> bool
        ensures { IsTrue result ↔ Contains (bits_of self.now) bit }
    {
        has_of(&self.nodes, bit)
    }

    /// The least bit at or above a bit, or `None` where there is none.
    pub fn next_from(&self, bit: u32) -> Option<u32>
        ensures some { IfSome result (IsLeastFrom (bits_of self.now) bit) }
        ensures none { IfNone result (All (λ c. c < bit) (bits_of self.now)) }
    {
        next_of(&self.nodes, bit)
    }

    /// The bits of either set.
    pub fn union(&self, alloc: Global, other: &Set) -> Result<Set, AllocError>
        ensures form { IfOk result IsSet }
        ensures bits { IfOk result (λ s. IsUnion (bits_of self.now) (bits_of other.now) (bits_of s)) }
    {
        let nodes = union_of(alloc, &self.nodes, &other.nodes)?;
        Set::from_nodes(alloc, nodes)
    }

    /// The bits of both sets.
    pub fn common(&self, alloc: Global, other: &Set) -> Result<Set, AllocError>
        ensures form { IfOk result IsSet }
        ensures bits { IfOk result (λ s. IsCommon (bits_of self.now) (bits_of other.now) (bits_of s)) }
    {
        let nodes = common_of(alloc, &self.nodes, &other.nodes)?;
        Set::from_nodes(alloc, nodes)
    }

    /// The bits of this set that the other has not.
    pub fn difference(&self, alloc: Global, other: &Set) -> Result<Set, AllocError>
        ensures form { IfOk result IsSet }
        ensures bits { IfOk result (λ s. IsDifference (bits_of self.now) (bits_of other.now) (bits_of s)) }
    {
        let nodes = difference_of(alloc, &self.nodes, &other.nodes)?;
        Set::from_nodes(alloc, nodes)
    }

    /// Whether some bit is in both sets.
    pub fn meets(&self, other: &Set) -> bool
        ensures { IsTrue result ↔ ShareBit (bits_of self.now) (bits_of other.now) }
    {
        meets_of(&self.nodes, &other.nodes)
    }

    /// Whether each bit of the other set is there.
    pub fn contains(&self, other: &Set) -> bool
        ensures { IsTrue result ↔ ContainsEach (bits_of self.now) (bits_of other.now) }
    {
        contains_of(&self.nodes, &other.nodes)
    }

    /// The bits, rising. All of them come in a time that is linear in the nodes and the bits.
    pub fn bits(&self) -> SetBits<'_>
        ensures { result ≡ bits_of self.now }
    {
        SetBits::new(&self.nodes)
    }

    /// The number of bits.
    pub fn count(&self) -> u64
        ensures form { IsSet self.now }
        ensures bits { result ≡ length (bits_of self.now) }
    {
        count_of(&self.nodes)
    }

    /// The nodes.
    pub fn nodes(&self) -> &[Node]
        ensures nodes { result.now ≡ self.now }
        ensures form { IsSet self.now }
    {
        &self.nodes
    }

    /// A set of the same bits, which shares the nodes.
    pub fn share(&self) -> Result<Set, AllocError>
        ensures form { IfOk result IsSet }
        ensures same { IfOk result (λ s. s ≡ self.now) }
    {
        Ok(Set {
            nodes: self.nodes.clone()?,
        })
    }
}
