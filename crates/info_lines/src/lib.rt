//! The kinds of listings, their lines, which are made one after the other, and the order of names.
//!
//! A listing is [`Lines`]: how many are left, and a call that adds the next one. What the line of a number says is [`LineText`], of
//! which a listing is made in file order ([`FileLines`]) or by numbers ([`NumberedLines`]).
//!
//! The lines of any listing are written so:
//!
//! ```text
//! for _ in 0..lines.count() {
//!     lines.push_line(&mut out)?;
//! }
//! ```
#![tactic(auto)]

mod entry_lines;
mod file_lines;
mod laws;
mod lines;
mod listing;
mod name_order;
mod name_sets;

pub use entry_lines::{EntryLines, EntryText};
pub use file_lines::{ChainedLines, FileLines};
pub use laws::primary_records_are_listed_once;
pub use lines::{LineText, Lines, NumberedLines};
pub use listing::Listing;
pub use name_order::{number_named, numbers_listed, primary_order};
pub use name_sets::{names_of_bits, names_of_values, values_of_bits};
pub use pol_texts::{insert_name, push_set};
