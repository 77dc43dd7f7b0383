//! The text of a stored rule: a line of a search, and what transitions and flows print of a rule.
//!
//! ```
//! let mut line = Vec::new(alloc);
//! push_rule(&policy, number, &mut line)?; // allow init_t etc_t:file { getattr read };
//! ```
#![tactic(auto)]

mod class_permissions;
mod condition_texts;
mod ioctl_run;
mod ioctl_texts;
mod permission_table;
mod rule_frame;
mod rule_parts;
mod rule_texts;
mod shown_names;
mod single_rules;
mod whole_rule;

pub use condition_texts::push_condition;
pub use rule_frame::RuleFrame;
pub use rule_parts::{push_class, push_head};
pub use rule_texts::RuleTexts;
pub use single_rules::{push_rule, push_single};
pub use whole_rule::push_end;
