//! A range transition, owned.

use pol_cursor::OwnedList;
use pol_mls::RangeRec;

/// A range transition, owned.
#[derive(Drop)]
pub struct RangeTransRec {
    /// The value of the type that makes the object or is the process.
    pub source: u32,
    /// The value of the type that is run or that the object is made from.
    pub target: u32,
    /// The value of the class of the new object.
    pub class: u32,
    /// The range of the new object.
    pub range: RangeRec,
}

/// Range transitions of a policy.
pub type RangeTransRecList = OwnedList<RangeTransRec>;
