//! What the rules of a policy that count grant to types.
//!
//! ```text
//! let execute = permission_named(policy.symbols(), b"file", b"execute");
//! let rule = policy.rule(number);
//! let grants = rules.counts(&rule) && gives(execute, &rule); // to the types that its source expands to
//! ```
#![tactic(auto)]

mod permission;

pub use permission::{Permission, gives, permission_named};
