// The lines of a file: the number of nodes, edges, and questions.
ghost use Rattle.std.specs.Prelude.{◌≤◌, IfOk};
ghost use Rattle.walk_example.specs.Edges.{node_count};

use crate::edge_graph::{EdgeGraph, MOST_NODES};
use crate::listing::print_walks;
use anyhow::{Context, Result, anyhow, ensure};
use std::fs;
use std::rt::Files;

/// Goes through a file, and prints what it asks for.
pub fn run(rt: &(impl Files + Print + AllocGlobal), name: &str) -> Result<()> {
    let text = fs::read_to_string(rt, name).context(format_args!("{name}"))?;
    let mut graph = None;
    for (index, line) in text.as_str().lines().enumerate() {
        let number = index.saturating_add(1);
        run_line(rt, line.trim(), &mut graph).context(format_args!("{name}, line {number}"))?;
    }
    ensure!(graph.is_some(), "{name}: no number of nodes");
    Ok(())
}

// Takes one line. Before the first that says something there is no graph.
fn run_line(
    rt: &(impl Print + AllocGlobal),
    line: &str,
    graph: &mut Option<EdgeGraph>,
) -> Result<()> {
    if line.is_empty() || line.starts_with('#') {
        return Ok(());
    }
    match graph {
        None => {
            *graph = Some(EdgeGraph::new(rt.alloc(), size_of(line)?)?);
            Ok(())
        }
        Some(graph) => match line.split_once(" to ") {
            Some((from, to)) => {
                let from = node_of(graph, from)?;
                let to = node_of(graph, to)?;
                print_walks(rt, graph, from, to)
            }
            None => add_edge(rt, line, graph),
        },
    }
}

// Takes a line of an edge.
fn add_edge(rt: &impl AllocGlobal, line: &str, graph: &mut EdgeGraph) -> Result<()> {
    let Some((from, to)) = line.split_once(' ') else {
        return Err(anyhow!("{line:?} is no edge and no question"));
    };
    let from = node_of(graph, from)?;
    let to = node_of(graph, to)?;
    graph.add(rt.alloc(), from, to)?;
    Ok(())
}

// The number of nodes.
fn size_of(text: &str) -> Result<u32>
    ensures { IfOk result (λ size. size ≤ MOST_NODES) }
{
    let size = number_of(text)?;
    ensure!(
        size <= MOST_NODES,
        "{size} nodes are more than {MOST_NODES}"
    );
    Ok(size)
}

// The node of that number.
fn node_of(graph: &EdgeGraph, text: &str) -> Result<u32>
    ensures { IfOk result (λ node. (1 ≤ node) × (node ≤ node_count graph.now)) }
{
    let node = number_of(text)?;
    ensure!(graph.is_node(node), "{node} is no node");
    Ok(node)
}

fn number_of(text: &str) -> Result<u32> {
    match text.trim().parse::<u32>() {
        Ok(number) => Ok(number),
        Err(_) => Err(anyhow!("{text:?} is no number of 32 bits")),
    }
}
