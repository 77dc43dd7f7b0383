// The search from the source, step by step.
ghost use Rattle.std.specs.Prelude.{◌≡◌, ◌≤◌, ◌<◌, ◌+◌, ◌^◌, IfOk, OnOk, length};
ghost use Rattle.pol_bitmap.specs.Nodes.{bits_of};
ghost use Rattle.walk_enum.specs.Walks.{successors_of};
ghost use Rattle.walk_simple.specs.Inner.Searching.{Covers, Searches, IsGrown};

use crate::row::{Row, empty_rows};
use crate::spread::{spread, zeros};
use pol_bitmap::Set;
use std::alloc::{AllocError, Global};
use std::sync::ledger::Ledger;
use walk_enum::{Graph, Steps};

/// By node, the successors of those that are reached in less than so many steps. Each is asked once.
pub fn rows_within<G: Graph, L: Ledger>(
    alloc: Global,
    graph: &G,
    from: u32,
    most: u32,
    steps: &mut Steps<L>,
) -> Result<Vec<Row>, AllocError>
    requires from_low { 1 ≤ from }
    requires from_high { from ≤ G.nodes graph.now }
    ensures covers { IfOk result (λ rows. Covers (successors_of (G.edge graph.now) (G.nodes graph.now)) from most rows.items) }
    ensures long { IfOk result (λ rows. length rows.items ≡ G.nodes graph.now + 1) }
    ensures cost { steps.new ≤ steps.old + G.nodes graph.now }
{
    let size = graph.size() as usize;
    let mut rows = empty_rows(alloc, size + 1)?;
    let mut marks = zeros(alloc, size + 1)?;
    let mut queue = Vec::new(alloc);
    marks[from as usize] = 1;
    queue.push(from)?;
    let mut head = 0;
    for _ in 0..most {
        head = ask_found(alloc, graph, &mut rows, &mut marks, &mut queue, head, steps)?;
    }
    Ok(rows)
}

// Asks the nodes of the queue from a place on, and answers where they end.
fn ask_found<G: Graph, L: Ledger>(
    alloc: Global,
    graph: &G,
    rows: &mut Vec<Row>,
    marks: &mut Vec<usize>,
    queue: &mut Vec<u32>,
    head: usize,
    steps: &mut Steps<L>,
) -> Result<usize, AllocError>
    requires { Searches (successors_of (G.edge graph.now) (G.nodes graph.now)) (G.nodes graph.now) marks.old.items queue.old.items rows.old.items head }
    ensures searches { IfOk result (λ end. Searches (successors_of (G.edge graph.now) (G.nodes graph.now)) (G.nodes graph.now) marks.new.items queue.new.items rows.new.items end) }
    ensures end { IfOk result (λ end. end ≡ length queue.old.items) }
    ensures grown { OnOk result (IsGrown queue.old.items queue.new.items) }
    ensures cost { IfOk result (λ end. steps.new + head ≡ steps.old + end) }
    ensures bound { steps.new + head ≤ steps.old + G.nodes graph.now }
{
    let end = queue.len();
    for place in head..end {
        let node = queue[place];
        let row = ask(alloc, graph, node, steps)?;
        spread(marks, queue, row.as_slice())?;
        rows[node as usize] = row;
    }
    Ok(end)
}

// The successors of a node.
fn ask<G: Graph, L: Ledger>(
    alloc: Global,
    graph: &G,
    node: u32,
    steps: &mut Steps<L>,
) -> Result<Row, AllocError>
    requires low { 1 ≤ node }
    requires high { node ≤ G.nodes graph.now }
    ensures found { IfOk result (λ row. row ≡ successors_of (G.edge graph.now) (G.nodes graph.now) node) }
    ensures step { steps.new ≡ steps.old + 1 }
{
    let set = graph.succ(alloc, node, steps)?;
    let row = row_from(alloc, &set)?;
    Ok(row)
}

// The members of a set.
fn row_from(alloc: Global, set: &Set) -> Result<Row, AllocError>
    ensures { IfOk result (λ row. row ≡ bits_of set.now) }
{
    let nodes = set.bits().collect(alloc)?;
    Ok(Row::new(nodes))
}
