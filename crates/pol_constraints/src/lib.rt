//! The constraints of a policy: on the permissions of a class, and on changes of context.
//!
//! ```
//! let constraint = read_constraint(&mut cursor, version, false)?;
//! let text = constraint.infix(alloc, &symbols)?; // u1 == u2 or t1 == { can_change_object_identity }
//! ```
#![tactic(auto)]

pub mod codes;
mod constraint_causes;
mod constraint_infix;
mod constraint_item;
mod constraint_places;
mod constraint_reading;
mod constraint_rec;
mod constraint_text;
mod constraint_view;
mod constraint_write;
mod junction;
mod laws;
mod type_set_view;

pub use constraint_item::{ConstraintItemView, ConstraintItems};
pub use constraint_places::constraint_end;
pub use constraint_rec::{ConstraintItem, ConstraintRec, ConstraintRecList, TypeSet};
pub use constraint_view::{ConstraintView, read_constraint};
pub use junction::Junction;
pub use laws::{constraints_have_laws, constraints_have_one_tree};
pub use pol_cursor::write_record as write_constraint;
pub use type_set_view::TypeSetView;
