//! The type set of an item in the buffer.

ghost use Rattle.std.specs.Prelude.{◌≡◌, IfOk};
ghost use Rattle.pol_constraints.specs.ConstraintRecord.{type_set_in, HasTypeSet};

use crate::constraint_places::{bitmap_end, flags_place};
use crate::constraint_rec::TypeSet;
use pol_bitmap::{BitmapView, Set};
use pol_cursor::u32_in;
use std::alloc::{AllocError, Global};
use std::marker::Model;

/// Types and attributes as they were written, in the buffer.
#[derive(Drop)]
pub struct TypeSetView<'a> {
    bytes: &'a [u8],
    place: u32,
}

impl<'a> Model for TypeSetView<'a> {
    ghost use Rattle.pol_constraints.specs.declared.constraint_rec.TypeSet.{TypeSet};
    ghost use Rattle.pol_constraints.specs.ConstraintRecord.{type_set_in, HasTypeSet};

    ghost Value = { TypeSet };

    ghost view = { λ v. type_set_in v.bytes.now v.place };

    ghost invariant = { λ v. HasTypeSet v.bytes.now v.place };
}

impl<'a> TypeSetView<'a> {
    /// The type set at a place that has one.
    pub fn at(bytes: &'a [u8], place: u32) -> TypeSetView<'a>
        requires { HasTypeSet bytes.now place }
        ensures { result ≡ type_set_in bytes.now place }
    {
        TypeSetView { bytes, place }
    }

    /// The types and attributes.
    #[tactic(auto, unfolding(crate::specs::ConstraintRecord::type_set_in, crate::specs::ConstraintRecord::HasTypeSet))]
    pub fn types(&self) -> BitmapView<'a>
        ensures { result ≡ self.now.types }
    {
        BitmapView::at(self.bytes, self.place)
    }

    /// The types and attributes that were excluded.
    #[tactic(auto, unfolding(crate::specs::ConstraintRecord::type_set_in, crate::specs::ConstraintRecord::HasTypeSet))]
    pub fn negated(&self) -> BitmapView<'a>
        ensures { result ≡ self.now.negated }
    {
        BitmapView::at(self.bytes, bitmap_end(self.bytes, self.place))
    }

    /// Whether all types, or all but these, were meant. It is kept.
    #[tactic(auto, unfolding(crate::specs::ConstraintRecord::type_set_in))]
    pub fn flags(&self) -> u32
        ensures { result ≡ self.now.flags }
    {
        u32_in(self.bytes, flags_place(self.bytes, self.place) as usize)
    }

    /// A copy of the type set.
    pub fn rec(&self, alloc: Global) -> Result<TypeSet, AllocError>
        ensures { IfOk result (λ set. set ≡ self.now) }
    {
        Ok(TypeSet {
            types: Set::from_view(alloc, &self.types())?,
            negated: Set::from_view(alloc, &self.negated())?,
            flags: self.flags(),
        })
    }
}
