//! A boolean, owned.

use pol_cursor::{ByteList, OwnedList};

/// A boolean, owned.
#[derive(Drop)]
pub struct BooleanRec {
    /// From 1 to the table's nprim.
    pub value: u32,
    /// 1 where it is true by default, else 0.
    pub state: u32,
    /// One byte or more, from 0x21 to 0x7E.
    pub name: ByteList,
}

pub type BooleanRecList = OwnedList<BooleanRec>;
