//! The file-name transitions of a policy, from groups to entries and back, as a change of its version asks for: versions below 33 have
//! them one by one, and later ones in groups.
//!
//! ```text
//! let groups = group(alloc, &entries)?;
//! if ungrouped_length(&groups, &declared) <= most {
//!     let entries = ungroup(alloc, &groups, &declared)?;
//! }
//! ```
#![tactic(auto)]

mod entries;
mod groups;
mod rows;
mod sources;

pub use entries::{ungroup, ungrouped_length};
pub use groups::group;
