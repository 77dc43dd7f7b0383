//! A datum of a group of file-name transitions, owned.

use pol_bitmap::Set;
use pol_cursor::OwnedList;

/// A datum of a group of file-name transitions, owned.
#[derive(Drop)]
pub struct NameDatumRec {
    /// The types that make the object: bit v - 1 stands for the value v.
    pub sources: Set,
    /// The value of the type that the new object has.
    pub default: u32,
}

/// Data of a group.
pub type NameDatumRecList = OwnedList<NameDatumRec>;
