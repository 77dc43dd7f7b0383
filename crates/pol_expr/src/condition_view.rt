//! The condition of a conditional node in the buffer.

ghost use Rattle.std.specs.Prelude.{◌≡◌, ◌<◌, ◌≤◌, ◌+◌, ◌*◌, ◌^◌, IfOk, OnOk, Some, length, slice_get, option_map};
ghost use Rattle.pol_fields.specs.declared.limits.TheConstants.{MAX_POLICY_BYTES};
ghost use Rattle.pol_cursor.specs.Outcome.{Answers};
ghost use Rattle.pol_cursor.specs.References.{dangling_of};
ghost use Rattle.pol_expr.specs.ConditionRecord.{condition_at, condition_in, condition_size, condition_references, item_reference, HasCondition, IsCondition};
ghost use Rattle.pol_expr.specs.ConditionMeaning.{condition_symbols};

use crate::causes::item_count_cause;
use crate::codes::COND_BOOL;
use crate::condition_reading::pass_items;
use crate::condition_rec::{ConditionItem, ConditionRec};
use crate::symbol::{Operator, Symbol, condition_symbol};
use pol_cursor::{Cursor, Names, OwnedList, dangling, refuse, u32_in};
use pol_fields::fields::{CONDNODE_BOOLEAN, CONDNODE_NEXPR, CONDNODE_STATE};
use pol_fields::{Fault, TableKind};
use std::alloc::{AllocError, Global};
use std::marker::Model;

/// The expression of a conditional node in the buffer. Contracts see it with its place.
#[derive(Drop)]
pub struct ConditionView<'a> {
    bytes: &'a [u8],
    place: u32,
}

impl<'a> Model for ConditionView<'a> {
    ghost use Rattle.pol_cursor.specs.References.{Placed};
    ghost use Rattle.pol_expr.specs.declared.condition_rec.ConditionRec.{ConditionRec};
    ghost use Rattle.pol_expr.specs.ConditionRecord.{condition_in, HasCondition};

    ghost Value = { Placed ConditionRec };

    ghost view = { λ v. record { place = v.place; value = condition_in v.bytes.now v.place } };

    ghost invariant = { λ v. HasCondition v.bytes.now v.place };
}

impl<'a> ConditionView<'a> {
    /// The condition at a place that has one.
    pub fn at(bytes: &'a [u8], place: u32) -> ConditionView<'a>
        requires { HasCondition bytes.now place }
        ensures { result ≡ record { place = place; value = condition_in bytes.now place } }
    {
        ConditionView { bytes, place }
    }

    /// What the expression was when the policy was written.
    pub fn state(&self) -> u32
        ensures { result ≡ self.now.value.state }
    {
        u32_in(self.bytes, self.place as usize)
    }

    /// How many items it has. They make one value.
    #[tactic(auto, using(crate::proofs::ItemPlaces::length_items_in))]
    pub fn len(&self) -> u32
        ensures all { result ≡ length self.now.value.items }
        ensures expression { IsCondition self.now.value.items }
    {
        u32_in(self.bytes, self.place as usize + 4)
    }

    /// The item of that number, from 0 on.
    #[tactic(auto, using(crate::proofs::ItemPlaces::length_items_in, crate::proofs::ItemPlaces::get_items_in))]
    pub fn item(&self, i: u32) -> ConditionItem
        requires { i < length self.now.value.items }
        ensures { slice_get self.now.value.items i ≡ Some result }
    {
        let place = self.item_place(i) as usize;
        ConditionItem {
            kind: u32_in(self.bytes, place),
            boolean: u32_in(self.bytes, place + 4),
        }
    }

    /// The kind of the item of that number, one of [`codes`](crate::codes).
    pub fn kind(&self, i: u32) -> u32
        requires { i < length self.now.value.items }
        ensures { option_map (λ item. item.kind) (slice_get self.now.value.items i) ≡ Some result }
    {
        self.item(i).kind
    }

    /// The boolean of the item of that number, which has no meaning where the kind is not [`COND_BOOL`].
    pub fn boolean(&self, i: u32) -> u32
        requires { i < length self.now.value.items }
        ensures { option_map (λ item. item.boolean) (slice_get self.now.value.items i) ≡ Some result }
    {
        self.item(i).boolean
    }

    /// What the item of that number is.
    #[tactic(auto, using(crate::proofs::ConditionTrees::symbol_at))]
    pub(crate) fn symbol(&self, i: u32) -> Symbol<u32, Operator>
        requires { i < length self.now.value.items }
        ensures { slice_get (condition_symbols self.now.value.items) i ≡ Some result }
    {
        condition_symbol(self.item(i))
    }

    /// The first boolean of the expression that no record declares, at its field. Takes no memory.
    pub fn dangling<N: Names>(&self, names: &N) -> Option<Fault>
        ensures { result ≡ dangling_of (N.named names.now) (condition_references self.now) }
    {
        for i in 0..self.len() {
            match item_dangling(names, self.item_place(i), self.item(i)) {
                Some(fault) => return Some(fault),
                None => {}
            }
        }
        None
    }

    /// A copy of the condition.
    pub fn rec(&self, alloc: Global) -> Result<ConditionRec, AllocError>
        ensures { IfOk result (λ condition. condition ≡ self.now.value) }
    {
        let mut items = Vec::new(alloc);
        for i in 0..self.len() {
            items.push(self.item(i))?;
        }
        Ok(ConditionRec {
            state: self.state(),
            items: OwnedList::from_vec(items),
        })
    }

    // The place of the item of that number.
    #[tactic(auto, using(crate::proofs::ItemPlaces::length_items_in))]
    fn item_place(&self, i: u32) -> u32
        requires { i < length self.now.value.items }
        ensures exact { result ≡ self.now.place + 8 + 8 * i }
        ensures small { result < MAX_POLICY_BYTES }
    {
        self.place + 8 + 8 * i
    }
}

// The fault of an item at a place, where its boolean is not declared.
#[tactic(auto, unfolding(crate::specs::ConditionRecord::item_reference))]
fn item_dangling<N: Names>(names: &N, place: u32, item: ConditionItem) -> Option<Fault>
    requires { place + 4 < 2 ^ 32 }
    ensures { result ≡ dangling_of (N.named names.now) (item_reference place item) }
{
    if item.kind != COND_BOOL {
        return None;
    }
    dangling(
        names,
        place + 4,
        CONDNODE_BOOLEAN,
        TableKind::Booleans,
        item.boolean,
    )
}

/// The condition at the cursor, which then stands behind it. Takes no memory.
///
/// `NotOneValue` where it has no item. At an item, `BadKind` where its kind is none of [`codes`](crate::codes), `NotOneValue` where its operands do
/// not stand before it or the last item leaves more than one value, and `TooDeep` where a boolean makes more than 10 values.
#[tactic(auto, unfolding(crate::specs::ConditionRecord::condition_at), using(pol_cursor::proofs::Facts::number_is, crate::proofs::PostfixReading::some_item))]
pub fn read_condition<'a>(c: &mut Cursor<'a>) -> Result<ConditionView<'a>, Fault>
    ensures exact { Answers (λ v. v.value) result condition_at c.old c.new }
    ensures stands { IfOk result (λ v. HasCondition c.old.bytes c.old.place × (v ≡ record { place = c.old.place; value = condition_in c.old.bytes c.old.place })) }
    ensures next { OnOk result (c.new.place ≡ c.old.place + condition_size c.old.bytes c.old.place) }
{
    let bytes = c.bytes();
    let first = c.place();
    c.u32(CONDNODE_STATE)?;
    let place = c.place();
    let count = c.u32(CONDNODE_NEXPR)?;
    refuse(item_count_cause(count), place, CONDNODE_NEXPR)?;
    pass_items(c, count)?;
    Ok(ConditionView {
        bytes,
        place: first,
    })
}
