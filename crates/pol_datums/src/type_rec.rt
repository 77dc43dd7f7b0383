//! A type, owned.

use pol_cursor::{ByteList, OwnedList};

/// A type, an attribute or an alias of a type, owned.
#[derive(Drop)]
pub struct TypeRec {
    /// From 1 to the table's nprim. An alias has the value of the type that it stands for.
    pub value: u32,
    /// Bit 0x1 is primary and bit 0x2 attribute. A record with neither is an alias. Other bits have no meaning.
    pub properties: u32,
    /// The value of the type that bounds it, or 0.
    pub bounds: u32,
    /// One byte or more, from 0x21 to 0x7E.
    pub name: ByteList,
}

pub type TypeRecList = OwnedList<TypeRec>;
