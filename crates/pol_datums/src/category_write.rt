//! How a category is written.

use crate::category_rec::CategoryRec;
use pol_cursor::{Part, Written};
use std::alloc::AllocError;

impl Written for CategoryRec {
    ghost use Rattle.pol_datums.specs.CategoryRecord.{spell_category};

    ghost spelling = { spell_category };

    fn write(&self, out: &mut Vec<u8>) -> Result<(), AllocError> {
        let len = Part::U32(self.name.len() as u64);
        let value = Part::U32(self.value as u64);
        let isalias = Part::U32(self.isalias as u64);
        let name = Part::Bytes(self.name.as_slice());
        (len, value, isalias, name).write(out)
    }
}
