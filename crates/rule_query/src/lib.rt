//! Which stored rules of a policy meet what a search asks for.
//!
//! The names, numbers and patterns of the criteria are looked up once ([`resolve`]), and what they mean is kept as sets of values, so
//! that a rule is compared by look-ups of numbers alone ([`Query`]).
//!
//! ```text
//! let query = resolve(alloc, &criteria, &policy, &mut patterns)?;
//! let all = query.sorted(alloc, &policy)?;
//! let ten = query.least(alloc, &policy, 10)?;
//! // without memory, in file order
//! let mut from = 0;
//! while let Some(number) = query.next_match(&policy, from) {
//!     print(number);
//!     from = number + 1;
//! }
//! ```
#![tactic(auto)]

mod ends;
mod gathering;
mod given;
mod laws;
mod listed;
mod marked_set;
mod query;
mod refusing;
mod resolving;
mod test_making;
mod tests;

pub use given::Aspect;
pub use laws::criteria_have_one_order;
pub use query::Query;
pub use refusing::Refusal;
pub use resolving::{QueryError, resolve};
