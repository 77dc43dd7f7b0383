//! Dense sets of values, values gathered with a mark for each, and the places of a list of values, grouped by value.
//!
//! Values are small numbers, as those of a policy's types. A union of many sets is made in one row of words, and what stands under a
//! value is found by where its group begins.
//!
//! ```text
//! let groups = Groups::of_values(alloc, &[3, 1, 3], 5)?;
//! let places = groups.places(3); // 0 and 2
//!
//! let mut union = DenseSet::new(alloc, 6)?;
//! union.add(4);
//! union.add_set(&set);
//! let all = union.to_set(alloc)?;
//! ```
#![tactic(auto)]

mod counting;
mod dense_set;
mod groups;
mod marked;

pub use dense_set::DenseSet;
pub use groups::Groups;
pub use marked::Marked;
