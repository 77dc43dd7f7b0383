//! A range, owned.

use crate::level_rec::LevelRec;
use pol_bitmap::Set;
use pol_cursor::OwnedList;

/// A range of levels, owned.
pub struct RangeRec {
    /// How many levels it has: 1 or 2. Two levels may be equal.
    pub n: u32,
    /// The value of the low level's sensitivity.
    pub low: u32,
    /// The low level's categories.
    pub low_categories: Set,
    /// The high level, where n is 2.
    pub high: Option<LevelRec>,
}

// Its parts go in one call, wherever it is dropped.
impl Drop for RangeRec {
    fn drop(self) {
        let RangeRec {
            n,
            low,
            low_categories,
            high,
        } = self;
    }
}

/// Ranges, owned.
pub type RangeRecList = OwnedList<RangeRec>;
