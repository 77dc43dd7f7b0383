// The search for the shortest walks.
ghost use Rattle.std.specs.Prelude.{◌≡◌, ◌≤◌, ◌+◌, ◌↔◌, IfOk, IfSome, None, []};
ghost use Rattle.walk_enum.specs.Walks.{least_walks};

use crate::cutting::cut;
use crate::explore::explore;
use crate::graph::Graph;
use crate::layers::Layers;
use crate::row::number_at;
use crate::steps::Steps;
use crate::table::Table;
use std::alloc::{AllocError, Global};
use std::sync::ledger::Ledger;

/// The shortest walks from a node to a node, or `None` where there is no walk.
///
/// From a node to itself there is one walk, of no step. Each node is asked for its successors at most once. The time is
/// linear in the edges of the nodes that are asked, but for bringing the nodes on shortest walks into order; of nodes
/// with many successors it is linear in the words of 64 nodes. The memory is that of the sets that the graph gives,
/// which are kept until the search ends, and of a few numbers a node. What stays is a row for every node of the graph,
/// with its successors on shortest walks, 4 bytes each, and the nodes that were found, 4 bytes each.
pub fn search<G: Graph, L: Ledger>(
    alloc: Global,
    graph: &G,
    from: u32,
    to: u32,
    steps: &mut Steps<L>,
) -> Result<Option<Layers>, AllocError>
    requires from_low { 1 ≤ from }
    requires from_high { from ≤ G.nodes graph.now }
    requires to_low { 1 ≤ to }
    requires to_high { to ≤ G.nodes graph.now }
    ensures none { IfOk result (λ found. (found ≡ None) ↔ (least_walks (G.edge graph.now) (G.nodes graph.now) from to ≡ [])) }
    ensures some { IfOk result (λ found. IfSome found (λ layers. layers ≡ least_walks (G.edge graph.now) (G.nodes graph.now) from to)) }
    ensures cost { steps.new ≤ steps.old + G.nodes graph.now }
{
    let found = explore(alloc, graph, from, to, steps)?;
    let depth = number_at(&found.depths, to);
    if depth == 0 {
        return Ok(None);
    }
    let rows = cut(alloc, &found, to)?;
    Ok(Some(Layers::new(Table {
        rows,
        order: found.queue,
        from,
        to,
        step_count: (depth - 1) as u32,
    })))
}
