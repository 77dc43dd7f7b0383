//! All walks from one node of a graph to another that have no node twice and at most a number of steps, in lexicographic
//! order.
//!
//! A graph is whatever answers the successors of its nodes ([`walk_enum::Graph`]). [`Simple::new`] asks each node that it
//! needs once. The walks are then read one after the other, and each next one is made in place ([`SimpleWalk`]), so that
//! they need not be few.
//!
//! ```text
//! let simple = Simple::new(alloc, &graph, 1, 4, 3, &mut steps)?;
//! let Some(mut walk) = simple.first_walk(alloc)? else {
//!     return Ok(()); // no walk
//! };
//! loop {
//!     for i in 0..walk.len() {
//!         print(walk.node(i));
//!     }
//!     if !simple.next_walk(&mut walk) {
//!         return Ok(());
//!     }
//! }
//! ```
#![tactic(auto)]

mod distances;
mod path;
mod row;
mod search;
mod simple;
mod spread;
mod table;
mod walk;
mod walk_laws;

pub use simple::Simple;
pub use walk::SimpleWalk;
pub use walk_laws::simple_walks_rise;
