//! The answer of sedta about a policy.
#![tactic(auto)]

mod dom;
mod dom_texts;
mod laws;
mod reason_texts;

pub use dom::answer_dom;
pub use laws::transitions_resume;
