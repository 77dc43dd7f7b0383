//! A permission, owned.

use pol_cursor::{ByteList, OwnedList};

/// A permission, owned.
#[derive(Drop)]
pub struct PermissionRec {
    /// One byte or more, each from 0x21 to 0x7E.
    pub name: ByteList,
    /// It is 1 to 32.
    pub value: u32,
}

pub type PermissionRecList = OwnedList<PermissionRec>;
