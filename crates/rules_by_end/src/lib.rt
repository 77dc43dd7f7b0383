//! Rules of a policy that stand under one of their ends, found by the types that it expands to.
//!
//! ```text
//! let rules = RulesByEnd::build(alloc, &policy, &types, RuleEnd::Source, numbers)?;
//! let targets = rules.others(alloc, source)?; // the types that they join it to
//! let between = rules.between(alloc, source, target)?; // in no order of their own
//! ```
#![tactic(auto)]

mod grouped_rules;
mod grouped_search;
mod grouping;
mod rule_row;
mod rules_by_end;
mod source_or_target;

pub use rules_by_end::RulesByEnd;
pub use source_or_target::RuleEnd;
