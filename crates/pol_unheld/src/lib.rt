//! What a version of the format cannot hold of a policy, named in the messages of a conversion.
//!
//! ```
//! assert_eq!(Unheld::Infiniband.word(), "Infiniband");
//! ```
#![tactic(auto)]

mod unheld;

pub use unheld::Unheld;
