//! What is read wherever it stands: reading does not depend on the bytes before a record nor on those behind it. Its lemmas say of each
//! record of a policy that it is read in the same way elsewhere, and which records no condition refuses; `pol_make` and `pol_sound` prove
//! by them that what they make is read.
//!
//! ```text
//! let set = Set::from_bits(alloc, &[0, 3])?; // written into any policy, it is read again as itself
//! ```
#![tactic(auto)]

mod moved_laws;

pub use moved_laws::{rules_are_read_at_versions, sets_are_read_anywhere};
