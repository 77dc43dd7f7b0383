//! Two lists of entries with keys, compared by their keys.
//!
//! ```text
//! pair_up(alloc, vec!["b", "a"], vec!["b", "c"])? // "a": (1, none), "b": (0, 0), "c": (none, 1)
//! ```
#![tactic(auto)]

mod laws;
mod pairing;

pub use laws::{
    a_list_does_not_differ_from_itself, differences_are_complete, differences_turn_round,
};
pub use pairing::{Places, pair_up};
