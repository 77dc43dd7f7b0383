//! A user, owned.

use pol_bitmap::Set;
use pol_cursor::{ByteList, OwnedList};
use pol_mls::{LevelRec, RangeRec};

/// A user, owned.
pub struct UserRec {
    /// From 1 to the table's nprim.
    pub value: u32,
    /// The value of the user that bounds it, or 0.
    pub bounds: u32,
    /// One byte or more, from 0x21 to 0x7E.
    pub name: ByteList,
    /// The roles of the user: bit v - 1 stands for the value v.
    pub roles: Set,
    /// The levels that it may have.
    pub range: RangeRec,
    /// The level that it has by default.
    pub level: LevelRec,
}

// Its parts go in one call, wherever it is dropped.
impl Drop for UserRec {
    fn drop(self) {
        let UserRec {
            value,
            bounds,
            name,
            roles,
            range,
            level,
        } = self;
    }
}

pub type UserRecList = OwnedList<UserRec>;
