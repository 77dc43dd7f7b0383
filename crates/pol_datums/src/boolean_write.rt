//! How a boolean is written.

use crate::boolean_rec::BooleanRec;
use pol_cursor::{Part, Written};
use std::alloc::AllocError;

impl Written for BooleanRec {
    ghost use Rattle.pol_datums.specs.BooleanRecord.{spell_boolean};

    ghost spelling = { spell_boolean };

    fn write(&self, out: &mut Vec<u8>) -> Result<(), AllocError> {
        let value = Part::U32(self.value as u64);
        let state = Part::U32(self.state as u64);
        let len = Part::U32(self.name.len() as u64);
        let name = Part::Bytes(self.name.as_slice());
        (value, state, len, name).write(out)
    }
}
