//! The summary of a policy: its version, and how many it has of each thing.
//!
//! ```text
//! let mut lines = summary(alloc, &policy)?;
//! for _ in 0..lines.count() {
//!     lines.push_line(&mut out)?;
//! }
//! ```
#![tactic(auto)]

mod context_counts;
mod entry;
mod rule_counts;
mod summary_text;
mod symbol_counts;

pub use entry::{Entry, Value};
pub use summary_text::{SummaryLines, SummaryText, summary};
