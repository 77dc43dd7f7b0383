//! How a conditional node is written.

use crate::condnode_rec::CondNodeRec;
use pol_cursor::{Part, Written};
use std::alloc::AllocError;

impl Written for CondNodeRec {
    ghost use Rattle.pol_conditionals.specs.CondNodeRecord.{spell_condnode};

    ghost spelling = { spell_condnode };

    fn write(&self, out: &mut Vec<u8>) -> Result<(), AllocError> {
        let true_count = Part::U32(self.true_rules.len() as u64);
        let false_count = Part::U32(self.false_rules.len() as u64);
        let true_rules = (true_count, &self.true_rules);
        let false_rules = (false_count, &self.false_rules);
        (&self.condition, true_rules, false_rules).write(out)
    }
}
