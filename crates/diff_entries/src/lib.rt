//! Entries of a policy that are compared with those of another, by keys, and the lines of what differs.
//!
//! A component of a policy is [`Entries`]: the keys and parts of its records, and their statements. Two of them make [`Differences`],
//! whose lines are made as they are written:
//!
//! ```text
//! let differences = Differences::new(alloc, first, second)?;
//! let mut lines = EntryLines::new(differences);
//! for _ in 0..lines.count() {
//!     lines.push_line(&mut out)?; // * role r types { +t };
//! }
//! ```
#![tactic(auto)]

mod changes;
mod differences;
mod entries;
mod keys;
mod laws;
mod names;
mod parts;

pub use changes::push_set_change;
pub use differences::Differences;
pub use entries::Entries;
pub use keys::{Key, Text};
pub use laws::{
    entries_do_not_differ_from_themselves, entry_differences_are_complete,
    entry_differences_turn_round,
};
pub use names::{Name, NameSet};
pub use parts::{FormGroups, Label, Part, PartValue};
