//! The entries of records of a policy that are compared between two policies by names: its properties, classes, defaults, levels,
//! bounds of types and the paths of file systems without labels.
//!
//! ```text
//! let differences = Differences::new(
//!     alloc,
//!     class_entries(alloc, &first)?,
//!     class_entries(alloc, &second)?,
//! )?;
//! ```
#![tactic(auto)]

mod bounds;
mod classes;
mod defaults;
mod genfs;
mod levels;
mod properties;
mod records;

pub use bounds::bounds_entries;
pub use classes::class_entries;
pub use defaults::default_entries;
pub use genfs::genfs_entries;
pub use levels::level_entries;
pub use properties::{Property, property_entries};
pub use records::{ComparedRecord, RecordEntries};
