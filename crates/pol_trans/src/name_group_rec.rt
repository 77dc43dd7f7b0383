//! A group of file-name transitions, owned.

use crate::name_datum_rec::NameDatumRecList;
use pol_cursor::{ByteList, OwnedList};

/// A group of file-name transitions with one name, target and class, owned.
#[derive(Drop)]
pub struct NameGroupRec {
    /// The name of the new object: one byte or more, none of them 0.
    pub name: ByteList,
    /// The value of the type that the object is made in.
    pub target: u32,
    /// The value of the class of the new object.
    pub class: u32,
    /// The sources, and the type that the new object of each has.
    pub datums: NameDatumRecList,
}

/// File-name transitions of a policy, as groups.
pub type NameGroupRecList = OwnedList<NameGroupRec>;
