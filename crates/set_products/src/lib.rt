//! Rules over single types, one after the other, without a list of them.
//!
//! An entry names a rule and two sets of a pool ([`Entry`]), which are counted first ([`CountedSets`]). It stands for each source of
//! the one set with each target of the other ([`Single`]). [`Places`] goes through all of these in order, from any of them on. It
//! takes no memory for that.
//!
//! ```text
//! let sets = CountedSets::new(alloc, pool)?;
//! let places = Places::new(&entries, &sets);
//! let mut at = places.skip(1_000_000);
//! while let Some((single, after)) = places.next(at) {
//!     print(single);
//!     at = after;
//! }
//! ```
//!
//! Where many are gone through, [`Places::row`] gives those of one source at a time ([`Row`]).
#![tactic(auto)]

mod counted_sets;
mod entry;
mod found;
mod place_laws;
mod places;
mod row;

pub use counted_sets::CountedSets;
pub use entry::{Entry, Place, Single};
pub use place_laws::{members_are_single_rules, steps_give_all_members};
pub use places::Places;
pub use row::Row;
