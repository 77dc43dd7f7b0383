// Listings of shortest walks.
ghost use Rattle.std.specs.Prelude.{◌≡◌, ◌≤◌, ◌<◌, ◌↔◌, None, [], IfOk, IfSome, length, min};
ghost use Rattle.walk_enum.specs.Walks.{least_walks};
ghost use Rattle.walk_example.specs.Edges.{node_count, has_edge};

use crate::edge_graph::EdgeGraph;
use anyhow::Result;
use std::alloc::{AllocError, Global};
use std::io;
use std::marker::Brand;
use std::sync::ledger::{Blank, Ledger};
use walk_enum::{Layers, Steps, Walk, search};

/// Prints how many shortest walks there are from a node to a node, and each of them.
pub fn print_walks(
    rt: &(impl Print + AllocGlobal),
    graph: &EdgeGraph,
    from: u32,
    to: u32,
) -> Result<()>
    requires from_low { 1 ≤ from }
    requires from_high { from ≤ node_count graph.now }
    requires to_low { 1 ≤ to }
    requires to_high { to ≤ node_count graph.now }
{
    let Some(layers) = layers_of(rt.alloc(), graph, from, to)? else {
        println!(rt; "{from} to {to}: no walk")?;
        return Ok(());
    };
    let steps = layers.length();
    let count = count_of(rt.alloc(), &layers, u64::MAX)?;
    println!(rt; "{from} to {to}: steps {steps}, walks {count}")?;
    print_each(rt, &layers)?;
    Ok(())
}

/// The shortest walks from a node to a node, or `None` where there is no walk.
pub fn layers_of(
    alloc: Global,
    graph: &EdgeGraph,
    from: u32,
    to: u32,
) -> Result<Option<Layers>, AllocError>
    requires from_low { 1 ≤ from }
    requires from_high { from ≤ node_count graph.now }
    requires to_low { 1 ≤ to }
    requires to_high { to ≤ node_count graph.now }
    ensures none { IfOk result (λ found. (found ≡ None) ↔ (least_walks (has_edge graph.now) (node_count graph.now) from to ≡ [])) }
    ensures some { IfOk result (λ found. IfSome found (λ layers. layers ≡ least_walks (has_edge graph.now) (node_count graph.now) from to)) }
{
    counted::<Brand>(alloc, graph, from, to, Blank::new(1))
}

// Searches with a counter of steps whose ledger the caller names.
fn counted<L: Ledger>(
    alloc: Global,
    graph: &EdgeGraph,
    from: u32,
    to: u32,
    blank: Blank,
) -> Result<Option<Layers>, AllocError>
    requires from_low { 1 ≤ from }
    requires from_high { from ≤ node_count graph.now }
    requires to_low { 1 ≤ to }
    requires to_high { to ≤ node_count graph.now }
    requires name { blank.name ≡ L.name }
    requires parts { blank.parts ≡ L.parts }
    requires some { 0 < blank.parts }
    ensures none { IfOk result (λ found. (found ≡ None) ↔ (least_walks (has_edge graph.now) (node_count graph.now) from to ≡ [])) }
    ensures some { IfOk result (λ found. IfSome found (λ layers. layers ≡ least_walks (has_edge graph.now) (node_count graph.now) from to)) }
{
    let mut steps = Steps::<L>::new(blank);
    search(alloc, graph, from, to, &mut steps)
}

/// The number of walks, of which no more than so many are counted.
pub fn count_of(alloc: Global, layers: &Layers, most: u64) -> Result<u64, AllocError>
    ensures { IfOk result (λ count. count ≡ min (length layers.now) most) }
{
    let mut walk = layers.first_walk(alloc)?;
    for index in 0..most {
        if !layers.next_walk(&mut walk) {
            return Ok(index + 1);
        }
    }
    Ok(most)
}

// Prints each walk.
fn print_each(rt: &(impl Print + AllocGlobal), layers: &Layers) -> io::Result<()> {
    let mut walk = layers.first_walk(rt.alloc())?;
    for _ in 0..u64::MAX {
        print_walk(rt, &walk)?;
        if !layers.next_walk(&mut walk) {
            return Ok(());
        }
    }
    Ok(())
}

// Prints the nodes of a walk on a line.
fn print_walk(rt: &impl Print, walk: &Walk) -> io::Result<()> {
    for i in 0..walk.len() {
        let node = walk.node(i);
        if i == 0 {
            print!(rt; "{node}")?;
        } else {
            print!(rt; " {node}")?;
        }
    }
    println!(rt)
}
