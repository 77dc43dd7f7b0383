//! Texts that are written through a buffer as they are made, and the part of a listing that is asked for. What makes a text piece by piece
//! is a `Pieces`; one loop writes all of them, and keeps no more than a page and a piece.
//!
//! ```
//! let part = Window { from: 10, limit: Some(5) }.of(&numbers);
//! write_pieces(alloc, &mut RuleLines::new(texts, part), out)?;
//! ```
#![tactic(auto)]

mod laws;
mod passing;
mod pieces;
mod window;
mod writing;

pub use laws::pages_resume;
pub use passing::{write_behind, write_pieces};
pub use pieces::Pieces;
pub use window::{MOST_ITEMS, Window};
pub use writing::{WriteEnd, page_buffer, write_all};
