//! Sets by what they have, in one form: the set of bits that rise, and that of numbers in any order, each as a value that contracts name.
//!
//! ```text
//! let sources = set_of_values(alloc, values)?; // in any order, also twice
//! let roles = set_of(alloc, &[0, 3])?;         // rising
//! let categories = first_bits(alloc, 1024)?;
//! ```
#![tactic(auto)]

mod set_laws;
mod sets;

pub use set_laws::{sets_have_their_bits, sets_have_their_values};
pub use sets::{first_bits, set_of, set_of_values};
