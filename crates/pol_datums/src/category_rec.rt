//! A category, owned.

use pol_cursor::{ByteList, OwnedList};

/// A category or an alias of one, owned.
#[derive(Drop)]
pub struct CategoryRec {
    /// From 1 to the table's nprim. An alias has the value of the category that it stands for.
    pub value: u32,
    /// 1 for an alias, else 0.
    pub isalias: u32,
    /// One byte or more, from 0x21 to 0x7E.
    pub name: ByteList,
}

pub type CategoryRecList = OwnedList<CategoryRec>;
