//! What a fault of a policy names: a field of the format ([`fields`]), a cause ([`Cause`]), a symbol table ([`TableKind`]), each with its
//! word in a message, and the numbers that have names in libsepol ([`codes`]).
//!
//! ```text
//! let fault = Fault { place: 16, field: HEADER_VERSION, cause: Cause::UnsupportedVersion };
//! assert_eq!(fault.field.word(), "header.version");
//! ```
#![tactic(auto)]

pub mod codes;
mod fault;
mod field;
pub mod fields;
pub mod limits;
mod table_kind;

pub use fault::{Cause, Fault};
pub use field::Field;
pub use table_kind::TableKind;
