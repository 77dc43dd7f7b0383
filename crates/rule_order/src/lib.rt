//! Numbers of stored rules in the order in which the rules are listed: by kind, then by the names of source, target and class, then by
//! number.
//!
//! ```
//! let numbers = [7, 3, 12];
//! let listed = sort_by_rule_order(alloc, &policy, &numbers)?; // the same numbers, each once, rising by their rules
//! ```
#![tactic(auto)]

mod found_rules;
mod key_list;
mod keys;
mod laws;
mod least_keys;
mod rule_keys;
mod sorting;
mod word_digits;
mod word_sort;

pub use found_rules::FoundRules;
pub use laws::{rules_are_listed_once, rules_have_one_order};
pub use least_keys::LeastKeys;
pub use rule_keys::RuleKeys;
pub use sorting::sort_by_rule_order;
