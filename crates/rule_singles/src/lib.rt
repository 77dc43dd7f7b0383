//! The rules between single types that a search finds.
//!
//! A rule that meets a search stands for a rule from each source that is listed to each target that is listed: the types that its ends
//! expand to, so far as the search asks for them. They are listed without a list of them ([`SingleRules`]).
//!
//! ```text
//! let numbers = query.sorted(alloc, &policy)?;
//! let rules = SingleRules::of(alloc, &policy, &types, &criteria, &query, &numbers)?;
//! let places = rules.places();
//! let first = places.next(places.first());
//! ```
#![tactic(auto)]

mod asked_types;
mod end_sets;
mod keeping;
mod single_rules;

pub use single_rules::SingleRules;
