//! Writing a policy from its tree, and the laws of whole files: the tree of an accepted file is sound and is spelled by its bytes, the
//! bytes of a sound tree are accepted as a policy of that tree, and a file that is cut short is refused at the field of the cut.
//!
//! What was read is written as the same bytes:
//!
//! ```text
//! let policy = read(alloc, &bytes)?;
//! let tree = tree_of(alloc, &policy)?;
//! let mut out = Vec::new(alloc);
//! write(alloc, &tree, &mut out)?;
//! ```
#![tactic(auto)]

mod cut_law;
mod errors;
mod tree_laws;
mod writing;

pub use cut_law::cut_files_have_law;
pub use errors::{Unsound, WriteError};
pub use tree_laws::{accepted_trees_have_law, sound_trees_have_law};
pub use writing::write;
