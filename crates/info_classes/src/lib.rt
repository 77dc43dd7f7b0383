//! The listings that come from the records of classes, line by line: constraints and default rules. And the bounds of types.
//!
//! ```
//! let mut lines = constraint_lines(alloc, symbols, ConstraintKind::OnPermissions, None)?;
//! ```
#![tactic(auto)]

mod bounds;
mod constraint_entry;
mod constraint_parts;
mod constraints;
mod default_entry;
mod defaults;
mod expression_texts;

pub use bounds::{BoundsLines, bounds_lines};
pub use constraint_entry::{ConstraintEntry, ConstraintKind, constraint_entries};
pub use constraint_parts::{push_constraint, push_permissions, some_compares_levels};
pub use constraints::{ConstraintLines, constraint_lines};
pub use default_entry::{DefaultEntry, DefaultKind, default_entries};
pub use defaults::{DefaultLines, default_lines};
