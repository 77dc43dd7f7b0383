//! A constraint, as it is read.

ghost use Rattle.std.specs.Prelude.{◌≡◌, ◌==◌, ◌≤◌, IfOk, OnOk, length};
ghost use Rattle.pol_cursor.specs.Outcome.{Answers};
ghost use Rattle.pol_cursor.specs.Parts.{num, optional};
ghost use Rattle.pol_expr.specs.Postfix.{values_after};
ghost use Rattle.pol_constraints.specs.declared.codes.TheConstants.{CEXPR_MAXDEPTH};
ghost use Rattle.pol_constraints.specs.ConstraintRecord.{type_set_at, type_set_in, type_set_end, sets_at, names_in, types_in, names_end, sets_end, item_at, item_in, item_end, items_at, items_in, items_end, kind_operands, HasTypeSet, HasSets, HasItem, HasItems, IsConstraint};

use crate::codes::CEXPR_NAMES;
use crate::constraint_causes::{attr_cause, kind_cause, kind_operands, op_cause};
use pol_bitmap::BitmapView;
use pol_cursor::{Cursor, refuse};
use pol_fields::Fault;
use pol_fields::fields::{CONSTRAINT_ATTR, CONSTRAINT_FLAGS, CONSTRAINT_KIND, CONSTRAINT_OP};

// The first version whose names have a type set beside them.
pub const TYPE_SETS: u32 = 29;

// Reads a type set and keeps nothing of it.
#[tactic(auto, unfolding(crate::specs::ConstraintRecord::type_set_at, crate::specs::ConstraintRecord::type_set_in, crate::specs::ConstraintRecord::type_set_end, crate::specs::ConstraintRecord::HasTypeSet), using(pol_cursor::proofs::Facts::number_is))]
fn pass_type_set(c: &mut Cursor<'_>) -> Result<(), Fault>
    ensures exact { Answers (λ _. type_set_in c.old.bytes c.old.place) result type_set_at c.old c.new }
    ensures next { OnOk result ((c.new.place ≡ type_set_end c.old.bytes c.old.place) × (c.new.place ≤ length c.old.bytes)) }
    ensures has { OnOk result (HasTypeSet c.old.bytes c.old.place) }
{
    BitmapView::read(c)?;
    BitmapView::read(c)?;
    c.u32(CONSTRAINT_FLAGS)?;
    Ok(())
}

// Reads the names of an item of a kind and its type set, and keeps nothing of them.
#[tactic(auto, unfolding(crate::specs::ConstraintRecord::sets_at, crate::specs::ConstraintRecord::names_in, crate::specs::ConstraintRecord::names_end, crate::specs::ConstraintRecord::types_in, crate::specs::ConstraintRecord::sets_end, crate::specs::ConstraintRecord::HasSets, pol_cursor::specs::Parts::optional))]
fn pass_sets(c: &mut Cursor<'_>, version: u32, kind: u32) -> Result<(), Fault>
    ensures exact { Answers (λ _. (names_in kind c.old.bytes c.old.place, types_in version kind c.old.bytes c.old.place)) result (sets_at version kind) c.old c.new }
    ensures next { OnOk result (c.new.place ≡ sets_end version kind c.old.bytes c.old.place) }
    ensures long { OnOk result (c.old.place ≤ length c.old.bytes → c.new.place ≤ length c.old.bytes) }
    ensures has { OnOk result (HasSets version kind c.old.bytes c.old.place) }
{
    if kind != CEXPR_NAMES {
        return Ok(());
    }
    BitmapView::read(c)?;
    if version < TYPE_SETS {
        return Ok(());
    }
    pass_type_set(c)
}

/// Reads an item before which so many values stand, and after which so many items are left. Answers the values after it.
#[tactic(auto, unfolding(crate::specs::ConstraintRecord::item_at), using(pol_cursor::proofs::Facts::number_is))]
pub fn pass_item(
    c: &mut Cursor<'_>,
    version: u32,
    xtarget: bool,
    left: u32,
    values: u32,
) -> Result<u32, Fault>
    requires { values ≤ CEXPR_MAXDEPTH }
    ensures exact { Answers (λ _. item_in version c.old.bytes c.old.place) result (item_at version xtarget left values) c.old c.new }
    ensures next { OnOk result (c.new.place ≡ item_end version c.old.bytes c.old.place) }
    ensures has { OnOk result (HasItem version c.old.bytes c.old.place) }
    ensures values { IfOk result (λ after. (after ≡ values_after values (kind_operands (num c.old.bytes c.old.place 4))) × (after ≤ CEXPR_MAXDEPTH)) }
{
    let place = c.place();
    let kind = c.u32(CONSTRAINT_KIND)?;
    refuse(kind_cause(left, values, kind), place, CONSTRAINT_KIND)?;
    let place = c.place();
    let attr = c.u32(CONSTRAINT_ATTR)?;
    refuse(attr_cause(xtarget, kind, attr), place, CONSTRAINT_ATTR)?;
    let place = c.place();
    let op = c.u32(CONSTRAINT_OP)?;
    refuse(op_cause(kind, op), place, CONSTRAINT_OP)?;
    let after = values + 1 - kind_operands(kind);
    pass_sets(c, version, kind)?;
    Ok(after)
}

/// Reads the items and keeps nothing of them.
pub fn pass_items(c: &mut Cursor<'_>, version: u32, xtarget: bool, count: u32) -> Result<(), Fault>
    ensures exact { Answers (λ _. items_in version c.old.bytes c.old.place count) result (items_at version xtarget count) c.old c.new }
    ensures expression { OnOk result (1 ≤ count → IsConstraint (items_in version c.old.bytes c.old.place count)) }
    ensures next { OnOk result (c.new.place ≡ items_end version c.old.bytes c.old.place count) }
    ensures has { OnOk result (HasItems version c.old.bytes c.old.place count) }
{
    let mut values = 0;
    for i in 0..count {
        values = pass_item(c, version, xtarget, count - i - 1, values)?;
    }
    Ok(())
}
