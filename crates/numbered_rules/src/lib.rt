//! Rules between numbers, and the differences between two lists of them, one after the other, without a list of them.
//!
//! A rule is given by the numbers of its sets in a pool ([`RuleForm`]). What it gives between a single source and a single target is
//! known by a [`SingleKey`].
//!
//! ```text
//! let mut differences = SingleDifferences::new(alloc, &pool, Counting::Permissions, first, second)?;
//! while let Some(difference) = differences.next(alloc)? {
//!     print(difference.key);
//! }
//! ```
#![tactic(auto)]

mod block;
mod cell;
mod difference;
mod differences;
mod form;
mod key;
mod left;
mod row;
mod sets;

pub use difference::SingleDifference;
pub use differences::SingleDifferences;
pub use form::RuleForm;
pub use key::{Counting, SingleKey};
