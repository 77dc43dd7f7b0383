//! The answer of sesearch about a policy.
#![tactic(auto)]

mod laws;
mod row_lines;
mod rule_lines;
mod search;
mod single_lines;

pub use laws::searches_resume;
pub use search::answer_search;
