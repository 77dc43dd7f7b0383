//! A policy held to a checklist: which names of the list the policy lacks, and what each check finds.
//!
//! ```text
//! if let Some(fault) = unknown_name(&policy, &list) {
//!     return Err(fault); // the first line with a name that the policy lacks
//! }
//! let checker = Checker::new(alloc, &policy)?;
//! let verdict = checker.verdict(alloc, list.check(0))?; // rules, or types; none where the check passes
//! ```
#![tactic(auto)]

mod allow_rules;
mod asked;
mod assertions;
mod checker;
mod executables;
mod known;
mod named_types;

pub use checker::{Checker, Verdict};
pub use known::unknown_name;
