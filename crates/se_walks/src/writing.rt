// The edges of a node, and the walks between two nodes, as they are written.
ghost use Rattle.std.specs.Prelude.{◌≡◌, ◌≤◌, ◌<◌, IfOk, Some, slice_get};
ghost use Rattle.std.specs.Option.{ForSome};
ghost use Rattle.std.specs.List.{concat};
ghost use Rattle.pol_bitmap.specs.Nodes.{bits_of};
ghost use Rattle.se_items.specs.Paging.{page};
ghost use Rattle.se_items.specs.Writing.{Sends};
ghost use Rattle.walk_enum.specs.Walks.{successors_of, least_walks};
ghost use Rattle.walk_simple.specs.SimpleWalks.{simple_walks};
ghost use Rattle.se_walks.specs.GraphItems.{walks_asked};
ghost use Rattle.se_walks.specs.Inner.Placed.{IsAtFirst, all_walks, next_walk};
ghost use Rattle.se_walks.specs.Inner.StepTexts.{AreStepTexts};
ghost use Rattle.se_walks.specs.Inner.WalkItems.{walks_left};
ghost use Rattle.se_walks.specs.Numbered.{numbered};
ghost use Rattle.se_walks.specs.WalkTexts.{end_item, walk_item};

use crate::EdgeTexts;
use crate::edge_items::EdgeItems;
use crate::walk_items::WalkItems;
use crate::walk_kinds::{ShortestWalks, SimpleWalks};
use crate::walks::Walks;
use kept_texts::KeptTexts;
use pol_bitmap::Set;
use se_items::{Window, WriteEnd, write_pieces};
use se_outside::Sink;
use std::alloc::{AllocError, Global};
use std::marker::Brand;
use std::sync::ledger::{Blank, Ledger};
use walk_enum::{Graph, Steps, search};
use walk_simple::Simple;

/// Writes the edges of a node, each of which goes from it or, in the reverse, to it.
pub fn write_edges<G: Graph, T: EdgeTexts, S: Sink>(
    alloc: Global,
    graph: &G,
    texts: &T,
    node: u32,
    reverse: bool,
    window: Window,
    out: &mut S,
) -> Result<(), WriteEnd>
    requires low { 1 ≤ node }
    requires high { node ≤ G.nodes graph.now }
    ensures { Sends (S.state out.old) (S.state out.new)
        (concat (page window.from window.limit (numbered (end_item (T.words texts.now) node reverse) 1 (successors_of (G.edge graph.now) (G.nodes graph.now) node)))) result }
{
    let ends = successors_of(alloc, graph, node)?;
    let mut items = EdgeItems {
        texts,
        node,
        reverse,
        ends: window.of(&ends),
        number: window.from.min(ends.len() as u64) + 1,
    };
    write_pieces(alloc, &mut items, out)
}

// The nodes that a node has an edge to, rising.
fn successors_of<G: Graph>(alloc: Global, graph: &G, node: u32) -> Result<Vec<u32>, AllocError>
    requires low { 1 ≤ node }
    requires high { node ≤ G.nodes graph.now }
    ensures { IfOk result (λ ends. ends.items ≡ successors_of (G.edge graph.now) (G.nodes graph.now) node) }
{
    counted_ends::<G, Brand>(alloc, graph, node, Blank::new(1))
}

// As [`successors_of`], with a counter of steps whose ledger the caller names.
fn counted_ends<G: Graph, L: Ledger>(
    alloc: Global,
    graph: &G,
    node: u32,
    blank: Blank,
) -> Result<Vec<u32>, AllocError>
    requires low { 1 ≤ node }
    requires high { node ≤ G.nodes graph.now }
    requires name { blank.name ≡ L.name }
    requires parts { blank.parts ≡ L.parts }
    requires some { 0 < blank.parts }
    ensures { IfOk result (λ ends. ends.items ≡ successors_of (G.edge graph.now) (G.nodes graph.now) node) }
{
    let mut steps = Steps::<L>::new(blank);
    let set = graph.succ(alloc, node, &mut steps)?;
    bits(alloc, &set)
}

// The bits of a set.
fn bits(alloc: Global, set: &Set) -> Result<Vec<u32>, AllocError>
    ensures { IfOk result (λ bits. bits.items ≡ bits_of set.now) }
{
    set.bits().collect(alloc)
}

/// Writes all shortest walks from a node to a node or, where a number is given, all of at most so many steps that have no node twice.
pub fn write_walks<G: Graph, T: EdgeTexts, S: Sink>(
    alloc: Global,
    graph: &G,
    texts: &T,
    from: u32,
    to: u32,
    all: Option<u32>,
    window: Window,
    out: &mut S,
) -> Result<(), WriteEnd>
    requires from_low { 1 ≤ from }
    requires from_high { from ≤ G.nodes graph.now }
    requires to_low { 1 ≤ to }
    requires to_high { to ≤ G.nodes graph.now }
    requires all_low { ForSome all (λ steps. 1 ≤ steps) }
    requires all_high { ForSome all (λ steps. steps ≤ 99) }
    ensures { Sends (S.state out.old) (S.state out.new)
        (concat (page window.from window.limit (numbered (walk_item (T.words texts.now)) 1 (walks_asked (G.edge graph.now) (G.nodes graph.now) all from to)))) result }
{
    match walks_asked(alloc, graph, from, to, all)? {
        None => Ok(()),
        Some(walks) => write_each(alloc, texts, walks, window, out),
    }
}

// Writes walks, of which the first is next.
fn write_each<T: EdgeTexts, S: Sink>(
    alloc: Global,
    texts: &T,
    walks: Walks,
    window: Window,
    out: &mut S,
) -> Result<(), WriteEnd>
    requires { slice_get (all_walks walks) 0 ≡ Some (next_walk walks) }
    ensures { Sends (S.state out.old) (S.state out.new)
        (concat (page window.from window.limit (numbered (walk_item (T.words texts.now)) 1 (all_walks walks)))) result }
{
    let mut items = items_in(alloc, texts, walks, window)?;
    write_pieces(alloc, &mut items, out)
}

// The walks that are asked for, of which the first is next.
fn items_in<'q, T: EdgeTexts>(
    alloc: Global,
    texts: &'q T,
    walks: Walks,
    window: Window,
) -> Result<WalkItems<'q, T>, AllocError>
    requires { slice_get (all_walks walks) 0 ≡ Some (next_walk walks) }
    ensures text { IfOk result (λ items. concat (walks_left T.words items) ≡ concat (page window.from window.limit (numbered (walk_item (T.words texts.now)) 1 (all_walks walks)))) }
    ensures kept { IfOk result (λ items. AreStepTexts (T.words items.texts.now) items.kept) }
{
    let end = window.end();
    let mut items = WalkItems {
        texts,
        walks,
        more: 0 < end,
        number: 0,
        end,
        kept: KeptTexts::none(alloc)?,
    };
    items.skip(alloc, window.from)?;
    Ok(items)
}

// The walks from a node to a node, of which the first is next, or `None` where there is no walk.
fn walks_asked<G: Graph>(
    alloc: Global,
    graph: &G,
    from: u32,
    to: u32,
    all: Option<u32>,
) -> Result<Option<Walks>, AllocError>
    requires from_low { 1 ≤ from }
    requires from_high { from ≤ G.nodes graph.now }
    requires to_low { 1 ≤ to }
    requires to_high { to ≤ G.nodes graph.now }
    requires all_low { ForSome all (λ steps. 1 ≤ steps) }
    requires all_high { ForSome all (λ steps. steps ≤ 99) }
    ensures { IfOk result (IsAtFirst (walks_asked (G.edge graph.now) (G.nodes graph.now) all from to)) }
{
    match all {
        None => shortest::<G, Brand>(alloc, graph, from, to, Blank::new(1)),
        Some(most) => simple::<G, Brand>(alloc, graph, from, to, most, Blank::new(1)),
    }
}

// The shortest walks, found with a counter of steps whose ledger the caller names.
fn shortest<G: Graph, L: Ledger>(
    alloc: Global,
    graph: &G,
    from: u32,
    to: u32,
    blank: Blank,
) -> Result<Option<Walks>, AllocError>
    requires from_low { 1 ≤ from }
    requires from_high { from ≤ G.nodes graph.now }
    requires to_low { 1 ≤ to }
    requires to_high { to ≤ G.nodes graph.now }
    requires name { blank.name ≡ L.name }
    requires parts { blank.parts ≡ L.parts }
    requires some { 0 < blank.parts }
    ensures { IfOk result (IsAtFirst (least_walks (G.edge graph.now) (G.nodes graph.now) from to)) }
{
    let mut steps = Steps::<L>::new(blank);
    let Some(layers) = search(alloc, graph, from, to, &mut steps)? else {
        return Ok(None);
    };
    let walk = layers.first_walk(alloc)?;
    Ok(Some(Walks::Shortest(ShortestWalks { layers, walk })))
}

// The walks of at most so many steps that have no node twice, found with such a counter.
fn simple<G: Graph, L: Ledger>(
    alloc: Global,
    graph: &G,
    from: u32,
    to: u32,
    most: u32,
    blank: Blank,
) -> Result<Option<Walks>, AllocError>
    requires from_low { 1 ≤ from }
    requires from_high { from ≤ G.nodes graph.now }
    requires to_low { 1 ≤ to }
    requires to_high { to ≤ G.nodes graph.now }
    requires most_low { 1 ≤ most }
    requires most_high { most ≤ 99 }
    requires name { blank.name ≡ L.name }
    requires parts { blank.parts ≡ L.parts }
    requires some { 0 < blank.parts }
    ensures { IfOk result (IsAtFirst (simple_walks (G.edge graph.now) (G.nodes graph.now) from to most)) }
{
    let mut steps = Steps::<L>::new(blank);
    let simple = Simple::new(alloc, graph, from, to, most, &mut steps)?;
    let Some(walk) = simple.first_walk(alloc)? else {
        return Ok(None);
    };
    Ok(Some(Walks::Simple(SimpleWalks { simple, walk })))
}
