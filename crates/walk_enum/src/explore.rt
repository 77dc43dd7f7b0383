// The search from the source, up to the depth of the target.
ghost use Rattle.std.specs.Prelude.{◌≡◌, ◌≤◌, ◌<◌, ◌+◌, ◌^◌, IfOk, length};
ghost use Rattle.walk_enum.specs.Walks.{successors_of};
ghost use Rattle.walk_enum.specs.Inner.Exploring.{Explores, IsAtEnd};

use crate::graph::Graph;
use crate::spread::{goes_on, spread, zeros};
use crate::steps::Steps;
use crate::successors::Successors;
use pol_bitmap::Set;
use std::alloc::{AllocError, Global};
use std::sync::ledger::Ledger;

/// What a search found: by node, one more than the number of steps to it, or 0; the nodes in the order in which they
/// were found; and the successors of those that were asked, in that order.
#[derive(Drop)]
pub struct Found {
    pub depths: Vec<usize>,
    pub queue: Vec<u32>,
    pub rows: Vec<Successors>,
}

/// Asks the nodes that lie less deep than the target, each once.
pub fn explore<G: Graph, L: Ledger>(
    alloc: Global,
    graph: &G,
    from: u32,
    to: u32,
    steps: &mut Steps<L>,
) -> Result<Found, AllocError>
    requires from_low { 1 ≤ from }
    requires from_high { from ≤ G.nodes graph.now }
    requires to_low { 1 ≤ to }
    requires to_high { to ≤ G.nodes graph.now }
    ensures found { IfOk result (λ f. Explores (successors_of (G.edge graph.now) (G.nodes graph.now)) (G.nodes graph.now) from to f.depths.items f.queue.items f.rows.items (length f.rows.items)) }
    ensures end { IfOk result (λ f. IsAtEnd f.depths.items f.queue.items (length f.rows.items) to) }
    ensures few { G.nodes graph.now < 2 ^ 32 }
    ensures cost { steps.new ≤ steps.old + G.nodes graph.now }
{
    let size = graph.size() as usize;
    let mut depths = zeros(alloc, size + 1)?;
    let mut queue = Vec::new(alloc);
    let mut rows = Vec::new(alloc);
    depths[from as usize] = 1;
    queue.push(from)?;
    let mut known = Set::empty(alloc)?;
    let mut head = 0;
    'asking: while goes_on(&depths, &queue, head, to) {
        let node = queue[head];
        let row = ask(alloc, graph, node, steps)?;
        let depth = depths[node as usize] + 1;
        spread(alloc, &mut depths, &mut queue, &mut known, &row, depth)?;
        rows.push(row)?;
        head += 1;
    }
    Ok(Found {
        depths,
        queue,
        rows,
    })
}

// The successors of a node. They are many where they are more than the words of 64 nodes that a set of the graph has, and
// a few more.
fn ask<G: Graph, L: Ledger>(
    alloc: Global,
    graph: &G,
    node: u32,
    steps: &mut Steps<L>,
) -> Result<Successors, AllocError>
    requires low { 1 ≤ node }
    requires high { node ≤ G.nodes graph.now }
    ensures found { IfOk result (λ row. row ≡ successors_of (G.edge graph.now) (G.nodes graph.now) node) }
    ensures step { steps.new ≡ steps.old + 1 }
{
    let many = graph.size() as u64 / 64 + 16;
    let set = graph.succ(alloc, node, steps)?;
    Ok(Successors::new(set, many))
}
