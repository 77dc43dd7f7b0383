//! A policy at another version: the same policy, written as kernels of that version read it. What the version cannot hold is refused by
//! its name.
//!
//! ```text
//! let tree = convert(alloc, tree_of(alloc, &policy)?, 30)?;
//! tree.write(&mut out)?;
//! ```
#![tactic(auto)]

mod constraints;
mod conversion;
mod declared;
mod errors;
mod keep_laws;
mod losses;

pub use conversion::convert;
pub use errors::ConvertError;
pub use keep_laws::{conversions_keep_records, conversions_keep_rules};
pub use pol_unheld::Unheld;
