//! Texts of pairs of numbers, as the edges of a graph, where many are written again and again: those written last are kept in bounded memory.
//!
//! ```
//! let mut kept = KeptTexts::none(alloc)?;
//! if let Some(text) = kept.text(from, to) {
//!     return buffer.extend_from_slice(text);
//! }
//! let start = buffer.len();
//! push_edge(from, to, &mut buffer)?;
//! kept.keep(from, to, &buffer[start..])?;
//! ```
#![tactic(auto)]

mod kept;

pub use kept::KeptTexts;
