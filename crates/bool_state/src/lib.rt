//! Which booleans of a policy are true, and which branch of a condition counts then.
//!
//! A policy stores a state for each of its booleans, and a running system may have set others. [`BoolState`] keeps the booleans that are
//! true where some states are given ([`Given`]) and the rest are as they are stored. The rules of a conditional node stand in two
//! branches, and those of one of them count: of the branch that is the value of the node's condition.
//!
//! ```text
//! let given = [Given { value: 3, on: true }, Given { value: 7, on: false }];
//! let state = BoolState::new(alloc, &symbols, &given)?;
//! let counts = state.enabled(&condition, true); // whether the rules of the true branch do
//! let branch = state.value(&condition);         // the branch whose rules do, found once for all of a node
//! ```
#![tactic(auto)]

mod given;
mod state;
mod value_laws;

pub use given::Given;
pub use state::BoolState;
pub use value_laws::conditions_have_one_value;
