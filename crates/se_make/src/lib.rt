//! The answer of make: a policy of so many types, by its bytes or by its summary.
#![tactic(auto)]

mod making;
mod singles;

pub use making::answer_make;
