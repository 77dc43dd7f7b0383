//! The bytes of a tree record by record: how many they are, and how they go through a sink a page at a time. Neither takes more memory
//! than a page and the longest record.
//!
//! ```text
//! if tree_length(alloc, &tree)? <= most {
//!     write_tree(alloc, &tree, out)?;
//! }
//! ```
#![tactic(auto)]

mod lists;
mod paged;
mod pages;
mod tree;
mod trees;

pub use trees::{tree_length, write_tree};
