//! The tools over words, files, patterns and sinks: a request is understood, its files are read whole, and the answer is written as it
//! is made.
#![tactic(auto)]

mod answer;
mod laws;
mod reading;

pub use answer::run;
pub use laws::{answers_are_complete, command_lines_resume};
pub use se_status::Status;
