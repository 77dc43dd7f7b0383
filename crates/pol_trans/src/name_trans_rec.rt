//! A file-name transition, owned.

use pol_cursor::{ByteList, OwnedList};

/// A file-name transition, owned.
#[derive(Drop)]
pub struct NameTransRec {
    /// The name of the new object: one byte or more, none of them 0.
    pub name: ByteList,
    /// The value of the type that makes the object.
    pub source: u32,
    /// The value of the type that the object is made in.
    pub target: u32,
    /// The value of the class of the new object.
    pub class: u32,
    /// The value of the type that the new object has.
    pub default: u32,
}

/// File-name transitions of a policy, as entries.
pub type NameTransRecList = OwnedList<NameTransRec>;
