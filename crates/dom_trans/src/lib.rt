//! Transitions from domain to domain by the rules of a policy that count, and the rules behind each of them.
//!
//! ```text
//! let rules = CountedRules::under(alloc, &policy, &state)?; // or all of them
//! let graph = DomGraph::new_under(alloc, rules, &types, &excluded, false)?;
//! let targets = graph.transitions_from(alloc, source)?;
//! let reasons = graph.reasons(alloc, source, target)?; // of enabled rules alone
//! ```
#![tactic(auto)]

mod by_default;
mod default_domains;
mod dom_graph;
mod dom_rules;
mod entries;
mod grant;
mod keeping;
mod laws;
mod reasons;
mod sources;
mod targets;

pub use dom_graph::DomGraph;
pub use laws::enabled_transitions_are_those_of_a_policy;
pub use reasons::{EntryReason, EntryReasonList, Reasons};
