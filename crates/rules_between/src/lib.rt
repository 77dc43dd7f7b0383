//! Chosen rules of a policy, found by the two types that their ends expand to.
//!
//! ```text
//! let rules = ChosenRules::build(alloc, &policy, &types, numbers)?;
//! let targets = rules.targets_of(alloc, source)?; // the types that they join it to
//! if rules.has_between(alloc, source, target)? {
//!     let between = rules.between(alloc, source, target)?; // in the order in which rules are listed
//! }
//! ```
#![tactic(auto)]

mod beginning;
mod chosen_rules;
mod rule_table;
mod rules_with_ends;
mod table_search;

pub use beginning::rule_begins_at;
pub use chosen_rules::ChosenRules;
pub use rules_with_ends::RulesWithEnds;
