//! Whole policies as trees of owned records, to be changed and written: how a tree is copied from a policy, how it is spelled, and its
//! first wrong optional part, without which its numbers fit.
//!
//! A tree is changed by its members, and `write` of `pol_write` writes it:
//!
//! ```text
//! let mut tree = tree_of(alloc, &policy)?;
//! tree.permissive = Set::empty(alloc)?;
//! write(alloc, &tree, &mut out)?;
//! ```
#![tactic(auto)]

mod copied_lists;
mod copies;
mod counted;
mod fitting;
mod fitting_constraints;
mod fitting_contexts;
mod fitting_datums;
mod fitting_levels;
mod fitting_rules;
mod fitting_symbols;
mod fitting_transitions;
mod tree;
mod tree_shape;
mod tree_spelling;

pub use copies::tree_of;
pub use tree::Tree;
pub use tree_shape::wrong_part_of;
