//! The answer of seinfoflow about a policy and a permission map.
#![tactic(auto)]

mod flow;
mod flow_texts;
mod laws;

pub use flow::answer_flow;
pub use laws::flows_resume;
