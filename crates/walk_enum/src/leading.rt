// The nodes from which the target is reached, as they are found from the target back.
ghost use Rattle.std.specs.Prelude.{◌≡◌, ◌∷◌, [], ℕ, IfOk, OnOk};
ghost use Rattle.std.specs.List.{Contains};
ghost use Rattle.pol_bitmap.specs.Nodes.{bits_of};

use pol_bitmap::Set;
use std::alloc::{AllocError, Global};

/// Nodes in a set, and those that were found since. The latter lie no deeper than a depth.
#[derive(Drop)]
pub struct Leading {
    pub set: Set,
    pub others: Vec<u32>,
    pub deepest: usize,
}

impl Leading {
    ghost use Rattle.walk_enum.specs.Inner.Leading.{Notes, Gathers};

    /// One node, in the set.
    pub fn new(alloc: Global, node: u32) -> Result<Leading, AllocError>
        ensures set { IfOk result (λ l. bits_of l.set ≡ node ∷ []) }
        ensures others { IfOk result (λ l. l.others.items ≡ []) }
    {
        Ok(Leading {
            set: Set::from_rising(alloc, &[node])?,
            others: Vec::new(alloc),
            deepest: 0,
        })
    }

    /// One node more, which lies at a depth, if there is a way on.
    pub fn note(&mut self, node: u32, depth: usize, ways: &[u32]) -> Result<(), AllocError>
        ensures { OnOk result (Notes self.old self.new node depth ways.now) }
    {
        if ways.is_empty() {
            return Ok(());
        }
        self.others.push(node)?;
        self.deepest = self.deepest.max(depth);
        Ok(())
    }

    /// Puts all nodes into the set, unless none of the others lies at a depth.
    pub fn gather(&mut self, alloc: Global, depth: usize) -> Result<(), AllocError>
        ensures { OnOk result (Gathers self.old self.new depth) }
    {
        if self.deepest < depth {
            return Ok(());
        }
        let others = set_of(alloc, &mut self.others)?;
        self.set = self.set.union(alloc, &others)?;
        self.others.clear();
        self.deepest = 0;
        Ok(())
    }
}

// The set of some nodes, which are brought into order.
fn set_of(alloc: Global, nodes: &mut Vec<u32>) -> Result<Set, AllocError>
    ensures { IfOk result (λ s. (node : ℕ) → Contains nodes.old.items node → Contains (bits_of s) node) }
{
    nodes.sort_unstable();
    nodes.dedup();
    Set::from_rising(alloc, nodes)
}
