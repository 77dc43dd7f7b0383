//! A role, owned.

use pol_bitmap::Set;
use pol_cursor::{ByteList, OwnedList};

/// A role, owned.
#[derive(Drop)]
pub struct RoleRec {
    /// From 1 to the table's nprim.
    pub value: u32,
    /// The value of the role that bounds it, or 0.
    pub bounds: u32,
    /// One byte or more, from 0x21 to 0x7E.
    pub name: ByteList,
    /// The roles that it dominates: bit v - 1 stands for the value v.
    pub dominates: Set,
    /// The types of the role: bit v - 1 stands for the value v.
    pub types: Set,
}

pub type RoleRecList = OwnedList<RoleRec>;
