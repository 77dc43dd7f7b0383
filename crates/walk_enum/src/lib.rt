//! All shortest walks from one node of a graph to another, in lexicographic order.
//!
//! A graph is whatever answers the successors of its nodes ([`Graph`]). [`search`] asks each node at most once, and
//! keeps what leads to the target ([`Layers`]). The walks are then read one after the other, and each next one is made
//! in place ([`Walk`]), so that they need not be few.
//!
//! ```text
//! let Some(layers) = search(alloc, &graph, 1, 4, &mut steps)? else {
//!     return Ok(()); // no walk
//! };
//! let mut walk = layers.first_walk(alloc)?;
//! loop {
//!     for i in 0..walk.len() {
//!         print(walk.node(i));
//!     }
//!     if !layers.next_walk(&mut walk) {
//!         return Ok(());
//!     }
//! }
//! ```
#![tactic(auto)]

mod after;
mod by_number;
mod counting;
mod cutting;
mod explore;
mod graph;
mod layers;
mod leading;
mod row;
mod searching;
mod spread;
mod steps;
mod successors;
mod table;
mod walk;
mod walk_laws;

pub use graph::Graph;
pub use layers::Layers;
pub use searching::search;
pub use steps::Steps;
pub use walk::Walk;
pub use walk_laws::{listings_are_complete, walks_rise};
