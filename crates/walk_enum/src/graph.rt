// What a graph is.
ghost use Rattle.std.specs.Prelude.{◌≡◌, ◌+◌, ◌≤◌, ℕ, Bool, true, IfOk};
ghost use Rattle.pol_bitmap.specs.Nodes.{bits_of};
ghost use Rattle.walk_enum.specs.Walks.{AreSuccessors};

use crate::steps::Steps;
use pol_bitmap::Set;
use std::alloc::{AllocError, Global};
use std::sync::ledger::Ledger;

/// A graph of the nodes 1 to `size`, which tells the successors of a node.
///
/// Its meaning is a number of nodes and a test of two numbers: whether there is an edge from the one to the other.
pub trait Graph {
    ghost nodes: { Self → ℕ };

    ghost edge: { Self → ℕ → ℕ → Bool };

    /// The number of nodes.
    fn size(&self) -> u32
        ensures { result ≡ nodes self.now };

    /// The nodes that a node has an edge to. This counts as one step.
    fn succ<L: Ledger>(
        &self,
        alloc: Global,
        node: u32,
        steps: &mut Steps<L>,
    ) -> Result<Set, AllocError>
        requires low { 1 ≤ node }
        requires high { node ≤ nodes self.now }
        ensures found { IfOk result (λ set. AreSuccessors (edge self.now) node (bits_of set)) }
        ensures step { steps.new ≡ steps.old + 1 };

    /// An edge joins nodes.
    ghost between: { (g : Self) (a b : ℕ) → edge g a b ≡ true → (1 ≤ a) × (a ≤ nodes g) × (1 ≤ b) × (b ≤ nodes g) };
}
