//! The permission map: how information flows by each permission of each class.
//!
//! A map is a text, as SETools has one. Its first line is a count of classes. Each class is a line `class NAME N` and then `N` lines
//! `PERMISSION DIRECTION WEIGHT`. Fields are parted by spaces and tabs, a field that begins with `#` ends its line, and lines without fields
//! are skipped. A later line for the same class and permission replaces the earlier one.
//!
//! ```text
//! let map = PermMap::read(alloc, b"1\nclass file 1\nread r 10\n")?;
//! map.weight(b"file", b"read") // Some((Direction::Read, 10))
//! ```
#![tactic(auto)]

mod classes;
mod direction;
mod fields;
mod lines;
mod map;
mod map_fault;
mod numbers;
mod reading;

pub use direction::Direction;
pub use map::PermMap;
pub use map_fault::{MapCause, MapError, MapFault};
