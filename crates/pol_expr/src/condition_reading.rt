//! Items of conditions, as they are read.

ghost use Rattle.std.specs.Prelude.{◌≡◌, ◌≤◌, ◌+◌, ◌*◌, IfOk, OnOk, length};
ghost use Rattle.pol_cursor.specs.Outcome.{Answers};
ghost use Rattle.pol_expr.specs.declared.codes.TheConstants.{COND_EXPR_MAXDEPTH};
ghost use Rattle.pol_expr.specs.ConditionRecord.{item_at, items_at, items_in, item_operands, values_after_item, IsCondition};

use crate::causes::{kind_cause, kind_operands};
use crate::condition_rec::ConditionItem;
use pol_cursor::{Cursor, refuse};
use pol_fields::Fault;
use pol_fields::fields::{CONDNODE_BOOLEAN, CONDNODE_KIND};

/// Reads an item before which so many values stand, and after which so many items are left.
#[tactic(auto, unfolding(crate::specs::ConditionRecord::item_at))]
pub fn read_item(c: &mut Cursor<'_>, left: u32, values: u32) -> Result<ConditionItem, Fault>
    requires { values ≤ COND_EXPR_MAXDEPTH }
    ensures exact { Answers (λ item. item) result (item_at left values) c.old c.new }
    ensures fits { IfOk result (λ item. (item_operands item ≤ values) × (values_after_item values item ≤ COND_EXPR_MAXDEPTH)) }
{
    let place = c.place();
    let kind = c.u32(CONDNODE_KIND)?;
    refuse(kind_cause(left, values, kind), place, CONDNODE_KIND)?;
    let boolean = c.u32(CONDNODE_BOOLEAN)?;
    Ok(ConditionItem { kind, boolean })
}

/// Reads the items and keeps none of them.
pub fn pass_items(c: &mut Cursor<'_>, count: u32) -> Result<(), Fault>
    ensures exact { Answers (λ _. items_in c.old.bytes c.old.place count) result (items_at count) c.old c.new }
    ensures expression { OnOk result (1 ≤ count → IsCondition (items_in c.old.bytes c.old.place count)) }
    ensures next { OnOk result (c.new.place ≡ c.old.place + 8 * count) }
    ensures long { OnOk result (c.old.place ≤ length c.old.bytes → c.old.place + 8 * count ≤ length c.old.bytes) }
{
    let mut values = 0;
    for i in 0..count {
        let item = read_item(c, count - i - 1, values)?;
        values = values + 1 - kind_operands(item.kind);
    }
    Ok(())
}
