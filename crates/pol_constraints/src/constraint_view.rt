//! The expression of a constraint in the buffer.

ghost use Rattle.std.specs.Prelude.{◌≡◌, ◌<◌, IfOk, OnOk, Some, length, slice_get, option_map};
ghost use Rattle.pol_cursor.specs.Outcome.{Answers};
ghost use Rattle.pol_constraints.specs.ConstraintRecord.{constraint_at, constraint_in, constraint_end, HasConstraint, IsConstraint};

use crate::constraint_item::{ConstraintItemView, ConstraintItems};
use crate::constraint_reading::pass_items;
use crate::constraint_rec::ConstraintRec;
use pol_bitmap::BitmapView;
use pol_cursor::{Cursor, OwnedList, refuse, u32_in};
use pol_expr::item_count_cause;
use pol_fields::Fault;
use pol_fields::fields::{CONSTRAINT_NEXPR, CONSTRAINT_PERMISSIONS};
use std::alloc::{AllocError, Global};
use std::marker::Model;

/// The expression of a constraint in the buffer.
#[derive(Drop)]
pub struct ConstraintView<'a> {
    bytes: &'a [u8],
    place: u32,
    version: u32,
}

impl<'a> Model for ConstraintView<'a> {
    ghost use Rattle.pol_constraints.specs.declared.constraint_rec.ConstraintRec.{ConstraintRec};
    ghost use Rattle.pol_constraints.specs.ConstraintRecord.{constraint_in, HasConstraint};

    ghost Value = { ConstraintRec };

    ghost view = { λ v. constraint_in v.version v.bytes.now v.place };

    ghost invariant = { λ v. HasConstraint v.version v.bytes.now v.place };
}

impl<'a> ConstraintView<'a> {
    /// The constraint of a policy of that version at a place that has one.
    pub fn at(bytes: &'a [u8], place: u32, version: u32) -> ConstraintView<'a>
        requires { HasConstraint version bytes.now place }
        ensures { result ≡ constraint_in version bytes.now place }
    {
        ConstraintView {
            bytes,
            place,
            version,
        }
    }

    /// The permissions that it is about: bit v - 1 stands for the permission of value v.
    pub fn permissions(&self) -> u32
        ensures { result ≡ self.now.permissions }
    {
        u32_in(self.bytes, self.place as usize)
    }

    /// How many items it has. They make one value.
    #[tactic(auto, using(crate::proofs::ConstraintPlaces::length_items_in))]
    pub fn len(&self) -> u32
        ensures all { result ≡ length self.now.items }
        ensures expression { IsConstraint self.now.items }
    {
        u32_in(self.bytes, self.place as usize + 4)
    }

    /// The items, in their order. They make one value.
    pub fn items(&self) -> ConstraintItems<'a>
        ensures all { result ≡ self.now.items }
        ensures expression { IsConstraint self.now.items }
    {
        let count = u32_in(self.bytes, self.place as usize + 4);
        ConstraintItems::at(self.bytes, self.place + 8, self.version, count)
    }

    /// The item of that number, from 0 on. It goes through those before it.
    #[tactic(auto, using(crate::proofs::PassedItems::next_dropped))]
    pub fn item(&self, i: u32) -> ConstraintItemView<'a>
        requires { i < length self.now.items }
        ensures { slice_get self.now.items i ≡ Some result }
    {
        let mut items = self.items();
        for _ in 0..i {
            items.next();
        }
        items.next().unwrap()
    }

    /// The kind of the item of that number, `CEXPR_NOT` to `CEXPR_NAMES` of [`codes`](crate::codes).
    pub fn kind(&self, i: u32) -> u32
        requires { i < length self.now.items }
        ensures { option_map (λ item. item.kind) (slice_get self.now.items i) ≡ Some result }
    {
        self.item(i).kind()
    }

    /// What the item of that number compares, by [`codes`](crate::codes). It has no meaning in an operator.
    pub fn attr(&self, i: u32) -> u32
        requires { i < length self.now.items }
        ensures { option_map (λ item. item.attr) (slice_get self.now.items i) ≡ Some result }
    {
        self.item(i).attr()
    }

    /// How the item of that number compares, `CEXPR_EQ` to `CEXPR_INCOMP` of [`codes`](crate::codes). It has no meaning in an
    /// operator.
    pub fn op(&self, i: u32) -> u32
        requires { i < length self.now.items }
        ensures { option_map (λ item. item.op) (slice_get self.now.items i) ≡ Some result }
    {
        self.item(i).op()
    }

    /// The names of the item of that number, where its kind is `CEXPR_NAMES`: bit v - 1 stands for the user, role or type of value v.
    pub fn names(&self, i: u32) -> Option<BitmapView<'a>>
        requires { i < length self.now.items }
        ensures { option_map (λ item. item.names) (slice_get self.now.items i) ≡ Some result }
    {
        self.item(i).names()
    }

    /// The types and attributes that the names of the item of that number were written with, where its kind is `CEXPR_NAMES` and the
    /// version is 29 or later.
    pub fn types(&self, i: u32) -> Option<BitmapView<'a>>
        requires { i < length self.now.items }
        ensures { option_map (λ item. option_map (λ set. set.types) item.type_set) (slice_get self.now.items i) ≡ Some result }
    {
        Some(self.item(i).type_set()?.types())
    }

    /// The types and attributes that were excluded from the names of the item of that number, where its kind is `CEXPR_NAMES` and the
    /// version is 29 or later.
    pub fn negated(&self, i: u32) -> Option<BitmapView<'a>>
        requires { i < length self.now.items }
        ensures { option_map (λ item. option_map (λ set. set.negated) item.type_set) (slice_get self.now.items i) ≡ Some result }
    {
        Some(self.item(i).type_set()?.negated())
    }

    /// The flags of the type set of the item of that number, where its kind is `CEXPR_NAMES` and the version is 29 or later. They are kept.
    pub fn flags(&self, i: u32) -> Option<u32>
        requires { i < length self.now.items }
        ensures { option_map (λ item. option_map (λ set. set.flags) item.type_set) (slice_get self.now.items i) ≡ Some result }
    {
        Some(self.item(i).type_set()?.flags())
    }

    /// A copy of the constraint.
    pub fn rec(&self, alloc: Global) -> Result<ConstraintRec, AllocError>
        ensures { IfOk result (λ constraint. constraint ≡ self.now) }
    {
        let mut items = Vec::new(alloc);
        for item in self.items() {
            items.push(item.rec(alloc)?)?;
        }
        Ok(ConstraintRec {
            permissions: self.permissions(),
            items: OwnedList::from_vec(items),
        })
    }
}

/// The constraint at the cursor, which then stands behind it. Takes no memory.
///
/// The items of a policy's version are read, and a third context is allowed or not. `NotOneValue` where there is no item. At an
/// item, `BadKind` where its kind is none of [`codes`](crate::codes), `NotOneValue` where its operands do not stand before it or the last item leaves
/// more than one value, `TooDeep` where a leaf makes more than 5 values, `BadAttr` where its attribute is none of its
/// kind's, or of a third context that is not allowed, `BadOp` where its operator is none of its kind's, and the faults of
/// `BitmapView::read`.
#[tactic(auto, unfolding(crate::specs::ConstraintRecord::constraint_at), using(pol_cursor::proofs::Facts::number_is, pol_expr::proofs::PostfixReading::some_item))]
pub fn read_constraint<'a>(
    c: &mut Cursor<'a>,
    version: u32,
    xtarget: bool,
) -> Result<ConstraintView<'a>, Fault>
    ensures exact { Answers (λ v. v) result (constraint_at version xtarget) c.old c.new }
    ensures stands { IfOk result (λ v. HasConstraint version c.old.bytes c.old.place × (v ≡ constraint_in version c.old.bytes c.old.place)) }
    ensures next { OnOk result (c.new.place ≡ constraint_end version c.old.bytes c.old.place) }
{
    let bytes = c.bytes();
    let first = c.place();
    c.u32(CONSTRAINT_PERMISSIONS)?;
    let place = c.place();
    let count = c.u32(CONSTRAINT_NEXPR)?;
    refuse(item_count_cause(count), place, CONSTRAINT_NEXPR)?;
    pass_items(c, version, xtarget, count)?;
    Ok(ConstraintView {
        bytes,
        place: first,
        version,
    })
}
