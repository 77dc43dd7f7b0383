//! Parts of the entries that are compared between two policies: sets of names, words, levels, ranges and contexts.
//!
//! ```text
//! let types = names_part(Label::Types, names);
//! let level = level_part(alloc, symbols, &user.level())?;
//! ```
#![tactic(auto)]

mod contexts;
mod entry_parts;

pub use contexts::context_part;
pub use entry_parts::{
    level_part, name_or_none, names_part, one_part, push_named, range_part, word_part,
};
