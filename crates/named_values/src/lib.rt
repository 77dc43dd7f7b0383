//! The values of a symbol table whose names are looked up, or have a pattern, as sets.
//!
//! ```text
//! let named = values_named(alloc, symbols, TableKind::Types, &[b"init_t"])?;
//! let found = values_found(alloc, symbols, TableKind::Types, &pattern)?;
//! ```
#![tactic(auto)]

mod found;
mod looked_up;

pub use found::values_found;
pub use looked_up::values_named;
