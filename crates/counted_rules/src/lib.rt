//! Which rules of a policy count: all of them, or those that are enabled where some booleans are true.
//!
//! An analysis of a policy asks whether each rule counts, and so is made once for both.
//!
//! ```text
//! let all = CountedRules::all(&policy);
//! let enabled = CountedRules::under(alloc, &policy, &state)?; // finds the value of each condition once
//! let counts = enabled.counts(&policy.rule(number));          // looks one of them up
//! ```
#![tactic(auto)]

mod enabled_laws;
mod node_values;
mod rules;

pub use enabled_laws::{enabled_rules_are_a_policy, rules_are_enabled_by_their_conditions};
pub use rules::CountedRules;
