// A graph that is made edge by edge.
ghost use Rattle.std.specs.Prelude.{◌≡◌, ◌≤◌, ◌<◌, ◌+◌, ◌^◌, ◌↔◌, ℕ, IfOk, OnOk, OnErr, IsTrue, false, length};
ghost use Rattle.walk_example.specs.Edges.{node_count, has_edge, AddsEdge};

use pol_bitmap::Set;
use std::alloc::{AllocError, Global};
use std::marker::Model;
use std::sync::ledger::Ledger;
use walk_enum::{Graph, Steps};

/// The most nodes of a graph.
pub const MOST_NODES: u32 = 1_000_000;

/// A graph of the nodes from 1 to a number, each with the set of its successors.
#[derive(Drop)]
pub struct EdgeGraph {
    // By node. The first set stands for no node.
    successors: Vec<Set>,
}

impl Model for EdgeGraph {
    ghost use Rattle.std.specs.Prelude.{◌<◌, ◌≤◌, ◌^◌, List, length};
    ghost use Rattle.pol_bitmap.specs.declared.Node.{Node};
    ghost use Rattle.walk_example.specs.Edges.{HaveNodes};

    ghost Value = { List (List Node) };

    ghost view = { λ g. g.successors.items };

    ghost invariant = { λ g. (0 < length g.successors.items) × (length g.successors.items ≤ 2 ^ 32) × HaveNodes g.successors.items };
}

impl EdgeGraph {
    /// A graph of so many nodes and no edge.
    pub fn new(alloc: Global, size: u32) -> Result<EdgeGraph, AllocError>
        requires { size ≤ MOST_NODES }
        ensures size { IfOk result (λ g. node_count g ≡ size) }
        ensures edges { IfOk result (λ g. (a b : ℕ) → has_edge g a b ≡ false) }
    {
        let count = size as usize + 1;
        let mut successors = Vec::with_capacity(alloc, count)?;
        for _ in 0..count {
            successors.push(Set::empty(alloc)?)?;
        }
        Ok(EdgeGraph { successors })
    }

    /// Whether a number is a node.
    pub fn is_node(&self, number: u32) -> bool
        ensures { IsTrue result ↔ ((1 ≤ number) × (number ≤ node_count self.now)) }
    {
        1 <= number && (number as usize) < self.successors.len()
    }

    /// Adds an edge from a node to a node. Out of memory, the graph stays as it is.
    pub fn add(&mut self, alloc: Global, from: u32, to: u32) -> Result<(), AllocError>
        requires from_low { 1 ≤ from }
        requires from_high { from ≤ node_count self.old }
        requires to_low { 1 ≤ to }
        requires to_high { to ≤ node_count self.old }
        ensures ok { OnOk result (AddsEdge self.old self.new from to) }
        ensures err { OnErr result (self.new ≡ self.old) }
    {
        let end = Set::from_rising(alloc, &[to])?;
        let more = self.successors[from as usize].union(alloc, &end)?;
        self.successors[from as usize] = more;
        Ok(())
    }
}

impl Graph for EdgeGraph {
    ghost use Rattle.walk_example.specs.Edges.{node_count, has_edge, edges_join};

    ghost nodes = { node_count };

    ghost edge = { has_edge };

    ghost between = { edges_join };

    fn size(&self) -> u32 {
        (self.successors.len() - 1) as u32
    }

    fn succ<L: Ledger>(
        &self,
        _alloc: Global,
        node: u32,
        steps: &mut Steps<L>,
    ) -> Result<Set, AllocError> {
        steps.tick();
        self.successors[node as usize].share()
    }
}
