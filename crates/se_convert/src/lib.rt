//! The answer of seconvert: a policy at another version, by its bytes, or what that version cannot hold of it.
#![tactic(auto)]

mod converting;

pub use converting::answer_convert;
