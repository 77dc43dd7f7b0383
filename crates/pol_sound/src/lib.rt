//! The law of conversion: a policy that is sound is sound at each version that can hold it, so what a conversion writes is read again.
//!
//! ```text
//! let tree = convert(alloc, tree_of(alloc, &policy)?, 30)?;
//! let mut out = Vec::new(alloc);
//! write(alloc, &tree, &mut out)?; // not refused
//! let converted = read(alloc, &out)?; // not refused
//! ```
#![tactic(auto)]

mod sound_law;

pub use sound_law::converted_policies_are_sound;
