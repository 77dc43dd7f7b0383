//! The entries of a policy's symbols, which are compared between two policies: commons, sensitivities, categories, types, attributes,
//! permissive types, roles, users and booleans.
//!
//! ```text
//! let differences = Differences::new(
//!     alloc,
//!     TypeEntries::new(alloc, &first)?,
//!     TypeEntries::new(alloc, &second)?,
//! )?;
//! ```
#![tactic(auto)]

mod aliased_entries;
mod attribute_entries;
mod permissive_entries;
mod record_texts;
mod symbol_entries;
mod symbol_parts;
mod type_entries;

pub use aliased_entries::AliasedEntries;
pub use attribute_entries::AttributeEntries;
pub use permissive_entries::PermissiveEntries;
pub use symbol_entries::SymbolEntries;
pub use type_entries::TypeEntries;
