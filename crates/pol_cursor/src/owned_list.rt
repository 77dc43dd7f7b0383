//! Lists that own what they have: bytes, numbers, records.

ghost use Rattle.std.specs.Prelude.{◌≡◌, ◌↔◌, [], IfOk, IsTrue, length};

use std::alloc::{AllocError, Global};
use std::marker::Model;

/// A list that is a member of a record. Contracts see it as a list.
#[derive(Drop)]
pub struct OwnedList<T: Drop> {
    items: Vec<T>,
}

/// Bytes of a record, as a name.
pub type ByteList = OwnedList<u8>;

/// Numbers of a record.
pub type NumberList = OwnedList<u32>;

impl<T: Drop> Model for OwnedList<T> {
    ghost use Rattle.std.specs.Prelude.{List};

    ghost Value = { List T };

    ghost view = { λ list. list.items.items };
}

impl<T: Drop> OwnedList<T> {
    /// The list of these items. It takes no memory.
    pub fn from_vec(items: Vec<T>) -> OwnedList<T>
        ensures { result ≡ items.items }
    {
        OwnedList { items }
    }

    /// The items, given back. It takes no memory.
    pub fn into_vec(self) -> Vec<T>
        ensures { result.items ≡ self }
    {
        self.items
    }

    /// How many items there are.
    pub fn len(&self) -> usize
        ensures { result ≡ length self.now }
    {
        self.items.len()
    }

    /// Whether there is no item.
    pub fn is_empty(&self) -> bool
        ensures { IsTrue result ↔ (self.now ≡ []) }
    {
        self.items.is_empty()
    }

    /// The items.
    pub fn as_slice(&self) -> &[T]
        ensures { result.now ≡ self.now }
    {
        self.items.as_slice()
    }
}

impl ByteList {
    /// A copy of bytes.
    pub fn copy_of(alloc: Global, bytes: &[u8]) -> Result<ByteList, AllocError>
        ensures { IfOk result (λ list. list ≡ bytes.now) }
    {
        Ok(OwnedList::from_vec(Vec::from_slice(alloc, bytes)?))
    }
}
