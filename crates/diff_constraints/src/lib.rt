//! The constraints of a policy, which are compared between two policies by names, and the lines of what differs.
//!
//! ```text
//! let lines = ConstraintLines::new(alloc, ConstraintKeyword::Constrain, &first, &second)?;
//! let mut lines = EntryLines::new(lines);
//! lines.push_line(&mut out)?; // * constrain file read (u1 == u2 and not t2 == { +web_t });
//! ```
#![tactic(auto)]

mod alone;
mod change_lines;
mod constraint_lines;
mod filled_text;
mod keyword;
mod laws;
mod no_names;
mod stated;
mod stated_order;

pub use constraint_lines::ConstraintLines;
pub use keyword::ConstraintKeyword;
pub use laws::{
    constraint_changes_turn_round, constraint_lines_are_filled,
    constraints_do_not_differ_from_themselves,
};
