//! How a class is written.

use crate::class_rec::ClassRec;
use pol_cursor::{Part, Written};
use std::alloc::AllocError;

// The version shows in the constraints of a class.
impl Written for ClassRec {
    ghost use Rattle.pol_classes.specs.ClassRecord.{spell_class};

    ghost spelling = { spell_class };

    fn write(&self, out: &mut Vec<u8>) -> Result<(), AllocError> {
        let name = Part::Bytes(self.name.as_slice());
        let common = Part::Bytes(self.common.as_slice());
        let head = (Numbers(self), name, common);
        let count = Part::U32(self.validatetrans.len() as u64);
        let rest = ((count, &self.validatetrans), Defaults(self));
        (head, &self.permissions, &self.constraints, rest).write(out)
    }
}

// The numbers before the names of a class.
#[derive(Drop)]
struct Numbers<'a>(&'a ClassRec);

impl<'a> Written for Numbers<'a> {
    ghost use Rattle.pol_classes.specs.ClassRecord.{spell_numbers, head_of};

    ghost spelling = { λ numbers. spell_numbers (head_of numbers.0.now) };

    fn write(&self, out: &mut Vec<u8>) -> Result<(), AllocError> {
        let class = self.0;
        let len = Part::U32(class.name.len() as u64);
        let common_len = Part::U32(class.common.len() as u64);
        let value = Part::U32(class.value as u64);
        let nprim = Part::U32(class.nprim as u64);
        let nel = Part::U32(class.permissions.len() as u64);
        let ncons = Part::U32(class.constraints.len() as u64);
        (len, common_len, value, (nprim, nel, ncons)).write(out)
    }
}

// What a class says of the contexts of new objects, at its end.
#[derive(Drop)]
struct Defaults<'a>(&'a ClassRec);

impl<'a> Written for Defaults<'a> {
    ghost use Rattle.pol_classes.specs.ClassRecord.{spell_defaults};

    ghost spelling = { λ defaults. spell_defaults defaults.0.now };

    fn write(&self, out: &mut Vec<u8>) -> Result<(), AllocError> {
        let user = Part::U32(self.0.default_user as u64);
        let role = Part::U32(self.0.default_role as u64);
        let range = Part::U32(self.0.default_range as u64);
        let type_default = Part::U32(self.0.default_type as u64);
        (user, role, range, type_default).write(out)
    }
}
