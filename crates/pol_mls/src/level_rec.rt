//! A level, owned.

use pol_bitmap::Set;
use pol_cursor::OwnedList;

/// A level, owned.
#[derive(Drop)]
pub struct LevelRec {
    /// The value of a sensitivity.
    pub sens: u32,
    /// The categories: bit v - 1 stands for the value v.
    pub categories: Set,
}

/// Levels, owned.
pub type LevelRecList = OwnedList<LevelRec>;
