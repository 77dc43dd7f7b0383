//! How information can flow between the types of a policy, by the weights of a permission map.
//!
//! An allow rule flows from its source to its target at the greatest weight of its permissions that are mapped as a write, and back at the
//! greatest of those that are mapped as a read. [`FlowGraph`] is the graph of the flows of at least a weight, for walks of `walk_enum`, and
//! tells the weight and the rules of each. All rules count in it, or those that are enabled in a state of the booleans.
//!
//! ```text
//! let graph = FlowGraph::new(alloc, &policy, &types, &map, least, &excluded, false)?;
//! let rules = CountedRules::under(alloc, &policy, &state)?;
//! let enabled = FlowGraph::new_under(alloc, rules, &types, &map, least, &excluded, false)?;
//! let weight = enabled.flow(from, to); // by enabled rules alone
//! ```
#![tactic(auto)]

mod class_weights;
mod enabled_laws;
mod flow_graph;
mod node_sets;
mod reach_bits;
mod reach_test;
mod reaching;
mod weigher;

pub use enabled_laws::enabled_flows_are_those_of_a_policy;
pub use flow_graph::FlowGraph;
