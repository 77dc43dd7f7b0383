//! The lines of a text, and their fields.
//!
//! Fields are parted by spaces and tabs, and a field that begins with `#` ends its line. A line ends at a line feed, which a carriage return
//! may stand before. Lines without fields are counted and skipped ([`Rows`]); the fields of one line are taken from its front
//! ([`first_field`]).
//!
//! ```text
//! let mut rows = Rows::new(b"# two fields\na b\n");
//! let row = rows.next()?; // number 2
//! first_field(row.text) // Some((b"a", b" b"))
//! ```
#![tactic(auto)]

mod fields;
mod limits;
mod rows;

pub use fields::{first_field, is_word};
pub use limits::MAX_TEXT_BYTES;
pub use rows::{Row, Rows};
