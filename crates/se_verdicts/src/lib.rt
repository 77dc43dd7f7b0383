//! The answer of sechecker about a policy and a checklist.
//!
//! ```text
//! let list = b"[logs]\ncheck_type = assert_te\ntarget = log_t\nperms = write\n";
//! let status = answer_check(alloc, &policy, list, &mut out);
//! // logs assert_te fail 1
//! //    allow domain log_t:file { read write };
//! // Failed checks: 1
//! ```
#![tactic(auto)]

mod check;
mod check_lines;
mod found;
mod lines;

pub use check::answer_check;
