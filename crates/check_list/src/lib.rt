//! Checklists: the checks that a policy is held to, as SETools' sechecker has them.
//!
//! A list is a text. A line `[NAME]` begins a check, and the lines `KEY = VALUE ..` up to the next such line are its settings. The first of
//! them is `check_type`. Fields and comments are those of a permission map.
//!
//! ```text
//! let list = CheckList::read(alloc, b"[logs]\ncheck_type = assert_te\ntarget = log_t\n")?;
//! list.check(0).name() // b"logs"
//! ```
#![tactic(auto)]

mod check;
mod check_key;
mod check_kind;
mod check_list;
mod lines;
mod list_fault;
mod written;

pub use check::{Check, Setting};
pub use check_key::CheckKey;
pub use check_kind::CheckKind;
pub use check_list::CheckList;
pub use list_fault::{ListCause, ListError, ListFault};
