//! A condition, written.

use crate::condition_rec::{ConditionItem, ConditionRec};
use pol_cursor::{Part, Written};
use std::alloc::AllocError;

impl Written for ConditionRec {
    ghost use Rattle.pol_expr.specs.ConditionRecord.{spell_condition};

    ghost spelling = { spell_condition };

    fn write(&self, out: &mut Vec<u8>) -> Result<(), AllocError> {
        let state = Part::U32(self.state as u64);
        let count = Part::U32(self.items.len() as u64);
        (state, count, &self.items).write(out)
    }
}

impl Written for ConditionItem {
    ghost use Rattle.pol_expr.specs.ConditionRecord.{spell_item};

    ghost spelling = { spell_item };

    fn write(&self, out: &mut Vec<u8>) -> Result<(), AllocError> {
        (Part::U32(self.kind as u64), Part::U32(self.boolean as u64)).write(out)
    }
}
