//! The lines of each listing of a policy, one after the other, as they are asked for ([`lines_of`], [`ListingLines`]).
//!
//! ```text
//! let Some(mut lines) = lines_of(alloc, &policy, false, Listing::Types, None)? else {
//!     return Ok(());
//! };
//! for _ in 0..lines.count() {
//!     lines.push_line(&mut buffer)?;
//! }
//! ```
#![tactic(auto)]

mod capabilities;
mod listing_lines;
mod names;

pub use listing_lines::{ListingLines, lines_of};
pub use names::name_is_known;
