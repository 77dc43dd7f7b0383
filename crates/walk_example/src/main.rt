//! Prints the shortest walks of graphs that are written down edge by edge.
//!
//! The words of the command line name files. The first line of a file is the number of nodes. A line `2 3` is an edge from
//! node 2 to node 3, and a line `2 to 3` asks for the shortest walks from the one to the other along the edges above it.
//! Empty lines, and those that begin with #, say nothing. What is asked after a line that is refused is not answered.
#![tactic(auto)]

mod edge_graph;
mod lines;
mod listing;

use anyhow::{Result, ensure};
use std::env;

fn main(rt: HostRuntime) -> Result<()> {
    let mut refused = 0u32;
    for name in env::args(&rt)?.skip(1) {
        if let Err(error) = lines::run(&rt, name.as_str()) {
            println!(rt; "{error:#}")?;
            refused = refused.saturating_add(1);
        }
    }
    ensure!(refused == 0, "files refused: {refused}");
    Ok(())
}
