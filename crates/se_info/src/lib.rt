//! The answer of seinfo about a policy: the listings that are wanted, or the summary.
#![tactic(auto)]

mod info;
mod listing_text;
mod unknown;

pub use info::{answer_info, write_summary};
