//! The components of a policy that are compared with those of another, and their differences line by line.
//!
//! Lines of differences are handed to a [`LineTaker`], listing after listing:
//!
//! ```text
//! for component in COMPONENTS {
//!     taker.take(&mut lines_of(component), out)?;
//! }
//! ```
#![tactic(auto)]

mod component;
mod difference_lines;
mod line_taker;
mod listed_lines;

pub use component::{COMPONENTS, Component};
pub use difference_lines::DifferenceLines;
pub use line_taker::LineTaker;
pub use listed_lines::ListedLines;
