// What is listed of a graph of types.
ghost use Rattle.std.specs.Prelude.{◌≡◌, ◌≤◌, ◌||◌};
ghost use Rattle.std.specs.List.{concat};
ghost use Rattle.pol_bitmap.specs.Nodes.{has_bit};
ghost use Rattle.pol_file.specs.declared.Parts.{Parts};
ghost use Rattle.se_items.specs.Paging.{page};
ghost use Rattle.se_items.specs.Writing.{Sends};
ghost use Rattle.se_walks.specs.GraphItems.{AreWithin, items_between, walk_items};

use crate::EdgeTexts;
use crate::writing::{write_edges, write_walks};
use pol_bitmap::Set;
use se_items::{Window, WriteEnd};
use se_outside::Sink;
use std::alloc::Global;
use walk_enum::Graph;

/// A type, and another to which walks are asked for.
#[derive(Clone, Copy, Debug)]
pub struct Ends {
    pub source: u32,
    pub target: Option<u32>,
    /// With a target: all walks of at most so many steps that have no type twice, in place of all shortest ones.
    pub all: Option<u32>,
    /// Without a target: the edges of the graph, which is turned round, into the source.
    pub reverse: bool,
}

/// Writes the edges of a source or, where a target is asked for, the walks from the source to it, if neither is excluded.
#[tactic(auto, unfolding(crate::specs::GraphItems::edge_items))]
pub fn write_items<G: Graph, T: EdgeTexts, S: Sink>(
    alloc: Global,
    graph: &G,
    texts: &T,
    excluded: &Set,
    ends: Ends,
    window: Window,
    out: &mut S,
) -> Result<(), WriteEnd>
    requires { AreWithin (G.nodes graph.now) ends }
    ensures { (policy : Parts) → G.nodes graph.now ≡ policy.symbols.types.nprim
        → Sends (S.state out.old) (S.state out.new)
        (concat (page window.from window.limit (items_between (T.words texts.now) (G.edge graph.now) policy (has_bit excluded.now) ends))) result }
{
    match ends.target {
        None => write_edges(alloc, graph, texts, ends.source, ends.reverse, window, out),
        Some(target) => write_paths(alloc, graph, texts, excluded, ends, target, window, out),
    }
}

// Writes the walks from the source to a target, unless one of them is excluded.
fn write_paths<G: Graph, T: EdgeTexts, S: Sink>(
    alloc: Global,
    graph: &G,
    texts: &T,
    excluded: &Set,
    ends: Ends,
    target: u32,
    window: Window,
    out: &mut S,
) -> Result<(), WriteEnd>
    requires ends { AreWithin (G.nodes graph.now) ends }
    requires target_low { 1 ≤ target }
    requires target_high { target ≤ G.nodes graph.now }
    ensures { (policy : Parts) → G.nodes graph.now ≡ policy.symbols.types.nprim
        → Sends (S.state out.old) (S.state out.new)
        (concat (page window.from window.limit (walk_items (T.words texts.now) (G.edge graph.now) policy (has_bit excluded.now) ends.all ends.source target))) result }
{
    if has_either(excluded, ends.source, target) {
        return Ok(());
    }
    write_walks(
        alloc,
        graph,
        texts,
        ends.source,
        target,
        ends.all,
        window,
        out,
    )
}

// Whether a set has one of two types.
fn has_either(set: &Set, a: u32, b: u32) -> bool
    ensures { result ≡ (has_bit set.now a || has_bit set.now b) }
{
    has_type(set, a) || has_type(set, b)
}

// Whether a set has a type.
fn has_type(set: &Set, value: u32) -> bool
    ensures { result ≡ has_bit set.now value }
{
    set.has(value)
}
