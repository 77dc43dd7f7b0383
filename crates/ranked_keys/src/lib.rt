//! Keys in order, each once, with their ranks.
//!
//! ```text
//! let ranked = RankedKeys::new(alloc, vec!["b", "a", "b"])?;
//! ranked.rank(&"b"); // Some(1)
//! ranked.key(0);     // "a"
//! ```
#![tactic(auto)]

mod ranked;

pub use ranked::{RankedKeys, in_order};
