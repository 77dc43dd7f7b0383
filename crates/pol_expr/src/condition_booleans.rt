//! The booleans of a condition.

ghost use Rattle.std.specs.Prelude.{◌≡◌, ◌↔◌, ◌++◌, ℕ, IfOk, OnOk, Contains};
ghost use Rattle.pol_bitmap.specs.Nodes.{bits_of};
ghost use Rattle.pol_expr.specs.ConditionMeaning.{item_booleans, booleans_in};

use crate::codes::COND_BOOL;
use crate::condition_rec::ConditionItem;
use crate::condition_view::ConditionView;
use pol_bitmap::Set;
use std::alloc::{AllocError, Global};

impl<'a> ConditionView<'a> {
    /// The values of the booleans of the expression.
    pub fn booleans_of(&self, alloc: Global) -> Result<Set, AllocError>
        ensures { IfOk result (λ set. (boolean : ℕ) → Contains (bits_of set) boolean ↔ Contains (booleans_in self.now.value.items) boolean) }
    {
        let mut booleans = Vec::new(alloc);
        for i in 0..self.len() {
            push_boolean(&mut booleans, self.item(i))?;
        }
        Set::from_values(alloc, booleans)
    }
}

// Appends the boolean that an item is, where it is one.
fn push_boolean(booleans: &mut Vec<u32>, item: ConditionItem) -> Result<(), AllocError>
    ensures { OnOk result (booleans.new.items ≡ booleans.old.items ++ item_booleans item) }
{
    if item.kind == COND_BOOL {
        booleans.push(item.boolean)?;
    }
    Ok(())
}
