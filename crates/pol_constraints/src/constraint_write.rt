//! A constraint, written.

use crate::constraint_rec::{ConstraintItem, ConstraintRec, TypeSet};
use pol_cursor::{Part, Written};
use std::alloc::AllocError;

// The version shows in the items of a constraint, which have type sets from version 29 on.
impl Written for ConstraintRec {
    ghost use Rattle.pol_constraints.specs.ConstraintRecord.{spell_constraint};

    ghost spelling = { spell_constraint };

    fn write(&self, out: &mut Vec<u8>) -> Result<(), AllocError> {
        let permissions = Part::U32(self.permissions as u64);
        let count = Part::U32(self.items.len() as u64);
        (permissions, count, &self.items).write(out)
    }
}

impl Written for ConstraintItem {
    ghost use Rattle.pol_constraints.specs.ConstraintRecord.{spell_item};

    ghost spelling = { spell_item };

    fn write(&self, out: &mut Vec<u8>) -> Result<(), AllocError> {
        let kind = Part::U32(self.kind as u64);
        let attr = Part::U32(self.attr as u64);
        let op = Part::U32(self.op as u64);
        (kind, attr, op, (&self.names, &self.type_set)).write(out)
    }
}

impl Written for TypeSet {
    ghost use Rattle.pol_constraints.specs.ConstraintRecord.{spell_type_set};

    ghost spelling = { spell_type_set };

    fn write(&self, out: &mut Vec<u8>) -> Result<(), AllocError> {
        (&self.types, &self.negated, Part::U32(self.flags as u64)).write(out)
    }
}
