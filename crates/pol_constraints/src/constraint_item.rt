//! The items of a constraint in the buffer.

ghost use Rattle.std.specs.Prelude.{◌≡◌, ◌≤◌, IfOk, length};
ghost use Rattle.pol_fields.specs.declared.limits.TheConstants.{MAX_POLICY_BYTES};
ghost use Rattle.std.specs.Iterator.{YieldsFirst, item_count};
ghost use Rattle.pol_constraints.specs.ConstraintRecord.{item_in, items_in, HasItem, HasItems};

use crate::codes::CEXPR_NAMES;
use crate::constraint_places::{bitmap_end, item_end};
use crate::constraint_reading::TYPE_SETS;
use crate::constraint_rec::ConstraintItem;
use crate::type_set_view::TypeSetView;
use pol_bitmap::{BitmapView, Set};
use pol_cursor::u32_in;
use std::alloc::{AllocError, Global};
use std::marker::Model;

/// An item of a constraint in the buffer.
#[derive(Drop)]
pub struct ConstraintItemView<'a> {
    bytes: &'a [u8],
    place: u32,
    version: u32,
}

impl<'a> Model for ConstraintItemView<'a> {
    ghost use Rattle.pol_fields.specs.declared.limits.TheConstants.{MAX_POLICY_BYTES};
    ghost use Rattle.std.specs.Prelude.{◌≤◌, length};
    ghost use Rattle.pol_constraints.specs.declared.constraint_rec.ConstraintItem.{ConstraintItem};
    ghost use Rattle.pol_constraints.specs.ConstraintRecord.{item_in, HasItem};

    ghost Value = { ConstraintItem };

    ghost view = { λ v. item_in v.version v.bytes.now v.place };

    ghost invariant = { λ v. HasItem v.version v.bytes.now v.place × (length v.bytes.now ≤ MAX_POLICY_BYTES) };
}

impl<'a> ConstraintItemView<'a> {
    /// The item of a policy of that version at a place that has one.
    pub fn at(bytes: &'a [u8], place: u32, version: u32) -> ConstraintItemView<'a>
        requires item { HasItem version bytes.now place }
        requires small { length bytes.now ≤ MAX_POLICY_BYTES }
        ensures { result ≡ item_in version bytes.now place }
    {
        ConstraintItemView {
            bytes,
            place,
            version,
        }
    }

    /// What it is, `CEXPR_NOT` to `CEXPR_NAMES` of [`codes`](crate::codes).
    pub fn kind(&self) -> u32
        ensures exact { result ≡ self.now.kind }
        ensures known { 1 ≤ result }
    {
        u32_in(self.bytes, self.place as usize)
    }

    /// What is compared, by [`codes`](crate::codes). It has no meaning in an operator.
    pub fn attr(&self) -> u32
        ensures { result ≡ self.now.attr }
    {
        u32_in(self.bytes, self.place as usize + 4)
    }

    /// How it is compared, `CEXPR_EQ` to `CEXPR_INCOMP` of [`codes`](crate::codes). It has no meaning in an operator.
    pub fn op(&self) -> u32
        ensures { result ≡ self.now.op }
    {
        u32_in(self.bytes, self.place as usize + 8)
    }

    /// The names, where the kind is [`CEXPR_NAMES`]: bit v - 1 stands for the user, role or type of value v.
    #[tactic(auto, unfolding(crate::specs::ConstraintRecord::names_in, crate::specs::ConstraintRecord::HasSets))]
    pub fn names(&self) -> Option<BitmapView<'a>>
        ensures { result ≡ self.now.names }
    {
        if self.kind() == CEXPR_NAMES {
            Some(BitmapView::at(self.bytes, self.place + 12))
        } else {
            None
        }
    }

    /// How the names were written, where the kind is [`CEXPR_NAMES`] and the version is 29 or later.
    #[tactic(auto, unfolding(crate::specs::ConstraintRecord::types_in, crate::specs::ConstraintRecord::HasSets))]
    pub fn type_set(&self) -> Option<TypeSetView<'a>>
        ensures { result ≡ self.now.type_set }
    {
        if self.kind() != CEXPR_NAMES || self.version < TYPE_SETS {
            return None;
        }
        let place = bitmap_end(self.bytes, self.place + 12);
        Some(TypeSetView::at(self.bytes, place))
    }

    /// A copy of the item.
    pub fn rec(&self, alloc: Global) -> Result<ConstraintItem, AllocError>
        ensures { IfOk result (λ item. item ≡ self.now) }
    {
        let names = match self.names() {
            Some(names) => Some(Set::from_view(alloc, &names)?),
            None => None,
        };
        let type_set = match self.type_set() {
            Some(type_set) => Some(type_set.rec(alloc)?),
            None => None,
        };
        Ok(ConstraintItem {
            kind: self.kind(),
            attr: self.attr(),
            op: self.op(),
            names,
            type_set,
        })
    }
}

/// The items of a constraint, in their order. Contracts see the list of those that are left. All of them come in a time that is
/// linear in their number.
#[derive(Drop)]
pub struct ConstraintItems<'a> {
    bytes: &'a [u8],
    place: u32,
    version: u32,
    left: u32,
}

impl<'a> Model for ConstraintItems<'a> {
    ghost use Rattle.pol_fields.specs.declared.limits.TheConstants.{MAX_POLICY_BYTES};
    ghost use Rattle.std.specs.Prelude.{◌≤◌, List, length};
    ghost use Rattle.pol_constraints.specs.declared.constraint_rec.ConstraintItem.{ConstraintItem};
    ghost use Rattle.pol_constraints.specs.ConstraintRecord.{items_in, HasItems};

    ghost Value = { List ConstraintItem };

    ghost view = { λ v. items_in v.version v.bytes.now v.place v.left };

    ghost invariant = { λ v. HasItems v.version v.bytes.now v.place v.left × (length v.bytes.now ≤ MAX_POLICY_BYTES) };
}

impl<'a> ConstraintItems<'a> {
    /// So many items from a place on that has them.
    pub fn at(bytes: &'a [u8], place: u32, version: u32, count: u32) -> ConstraintItems<'a>
        requires items { HasItems version bytes.now place count }
        requires small { length bytes.now ≤ MAX_POLICY_BYTES }
        ensures { result ≡ items_in version bytes.now place count }
    {
        ConstraintItems {
            bytes,
            place,
            version,
            left: count,
        }
    }
}

impl<'a> Iterator for ConstraintItems<'a> {
    type Item = ConstraintItemView<'a>;

    ghost next_gives = { YieldsFirst (λ rest. rest) };

    ghost remaining = { item_count (λ rest. rest) };

    #[tactic(auto, unfolding(crate::specs::ConstraintRecord::items_in, crate::specs::ConstraintRecord::HasItems), using(crate::proofs::ConstraintPlaces::items_left, crate::proofs::ConstraintPlaces::HasItems_left, crate::proofs::ConstraintPlaces::length_items_in))]
    fn next(&mut self) -> Option<ConstraintItemView<'a>> {
        if self.left == 0 {
            return None;
        }
        let item = ConstraintItemView::at(self.bytes, self.place, self.version);
        self.place = item_end(self.bytes, self.place, self.version);
        self.left -= 1;
        Some(item)
    }
}
