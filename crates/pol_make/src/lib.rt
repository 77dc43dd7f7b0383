//! Policies that are made: of so many types in a ring, for measurements and tests. Each of them is sound, so `write` of `pol_write` writes
//! it.
//!
//! ```text
//! let tree = make(alloc, 200)?;
//! let mut out = Vec::new(alloc);
//! write(alloc, &tree, &mut out)?;
//! ```
#![tactic(auto)]

mod made_laws;
mod make_classes;
mod make_rules;
mod make_symbols;
mod make_types;
mod making;
mod names;

pub use made_laws::made_policies_are_sound;
pub use making::make;
