//! The entries of a policy's capabilities, which are compared between two policies.
//!
//! ```text
//! let differences = Differences::new(
//!     alloc,
//!     CapabilityEntries::new(alloc, &first)?,
//!     CapabilityEntries::new(alloc, &second)?,
//! )?;
//! ```
#![tactic(auto)]

mod capability_entries;
mod line_texts;

pub use capability_entries::CapabilityEntries;
