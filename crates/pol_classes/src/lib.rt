//! Classes of objects, with their permissions and constraints, and the table of them.
//!
//! ```text
//! let (classes, commons) = read_class_table(alloc, &mut cursor, version, commons)?;
//! let file = classes.view(0);
//! for constraint in file.constraints() {
//!     print(constraint.permissions());
//! }
//! ```
#![tactic(auto)]

mod causes;
mod class_head;
mod class_kind;
mod class_rec;
mod class_table;
mod class_view;
mod class_write;
mod constraint_list;
mod laws;

pub use class_kind::{Class, ClassContext};
pub use class_rec::{ClassRec, ClassRecList};
pub use class_table::{ByTypeSets, ClassTable, read_class_table};
pub use class_view::{ClassView, read_class};
pub use constraint_list::ConstraintList;
pub use laws::{classes_have_laws, classes_have_two_forms};
pub use pol_cursor::write_record as write_class;
