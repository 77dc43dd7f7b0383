//! A policy that was accepted, with its stored rules by their numbers, and the order in which these are listed.
//!
//! ```
//! let policy = read(alloc, &bytes)?;
//! for number in 0..policy.rule_count() {
//!     let rule = policy.rule(number);
//!     let source = policy.symbols().name_of(rule.kind.source_table(), rule.source);
//! }
//! ```
#![tactic(auto)]

mod declared_law;
mod declared_value;
mod key_law;
mod name_index;
mod policy;
mod rule;
mod rule_index;
mod rule_order;
mod rule_record;
mod rules;
mod sorting;
mod stored;
mod sums;

pub use declared_law::declared_types_have_law;
pub use key_law::rule_keys_have_law;
pub use pol_file::{TypeRow, TypeRows};
pub use policy::{Policy, read};
pub use rule::{Condition, Rule, RuleEnds, RuleKind, RulePart};
pub use rule_order::{RuleKey, rule_key};
pub use rule_record::{RuleRecord, rule_kind, vector_ends, vector_rule};
