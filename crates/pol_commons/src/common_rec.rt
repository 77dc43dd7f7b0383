//! A common, owned.

use crate::permission_rec::PermissionRec;
use pol_cursor::{ByteList, OwnedList};

/// A common, owned.
#[derive(Drop)]
pub struct CommonRec {
    /// One byte or more, each from 0x21 to 0x7E.
    pub name: ByteList,
    /// It is 1 to the `nprim` of its table.
    pub value: u32,
    /// How many permissions it declares, at most 32.
    pub nprim: u32,
    pub permissions: OwnedList<PermissionRec>,
}

pub type CommonRecList = OwnedList<CommonRec>;
