// Copies of the records of a list.
ghost use Rattle.std.specs.Prelude.{◌≡◌, IfOk};
ghost use Rattle.pol_cursor.specs.References.{values_of};

use crate::{NestedRecord, NestedRecords, OwnedList, RecordView, Records};
use std::alloc::{AllocError, Global};

/// A kind of record whose records can be copied out of the buffer.
pub trait Copied<'a>: RecordView<'a> {
    ghost use Rattle.std.specs.Prelude.{◌≡◌, IfOk};

    /// The record that a view shows, owned.
    fn rec(view: &Self::View, alloc: Global) -> Result<Self::Owned, AllocError>
        ensures { IfOk result (λ owned. owned ≡ (Self.shown view.now).value) };
}

impl<'a, V: Copied<'a> + Drop> Records<'a, V>
where
    V::View: Drop,
    V::Owned: Drop,
{
    /// All records, owned.
    pub fn rec(&self, alloc: Global) -> Result<OwnedList<V::Owned>, AllocError>
        ensures { IfOk result (λ list. list ≡ values_of self.now) }
    {
        let mut list = Vec::new(alloc);
        for i in 0..self.len() {
            list.push(V::rec(&self.view(i), alloc)?)?;
        }
        Ok(OwnedList::from_vec(list))
    }
}

impl<'a, V: Copied<'a> + NestedRecord + Drop> NestedRecords<'a, V>
where
    V::View: Drop,
    V::Owned: Drop,
{
    /// All records that are left, owned.
    pub fn rec(&self, alloc: Global) -> Result<OwnedList<V::Owned>, AllocError>
        ensures { IfOk result (λ list. list ≡ values_of self.now) }
    {
        let mut list = Vec::new(alloc);
        for view in self.iter() {
            list.push(V::rec(&view, alloc)?)?;
        }
        Ok(OwnedList::from_vec(list))
    }
}
