//! A sensitivity, owned.

use pol_bitmap::Set;
use pol_cursor::{ByteList, OwnedList};

/// A sensitivity or an alias of one, owned.
#[derive(Drop)]
pub struct SensitivityRec {
    /// 1 for an alias, else 0.
    pub isalias: u32,
    /// One byte or more, from 0x21 to 0x7E.
    pub name: ByteList,
    /// The value of the sensitivity, from 1 to the table's nprim. An alias has that of the sensitivity that it stands for.
    pub sens: u32,
    /// The categories that go with it: bit v - 1 stands for the value v.
    pub categories: Set,
}

pub type SensitivityRecList = OwnedList<SensitivityRec>;
