//! How a context is written.

use crate::context_rec::ContextRec;
use pol_cursor::{Part, Written};
use std::alloc::AllocError;

impl Written for ContextRec {
    ghost use Rattle.pol_mls.specs.ContextRecord.{spell_context};

    ghost spelling = { spell_context };

    fn write(&self, out: &mut Vec<u8>) -> Result<(), AllocError> {
        let user = Part::U32(self.user as u64);
        let role = Part::U32(self.role as u64);
        let type_value = Part::U32(self.type_value as u64);
        (user, role, type_value, &self.range).write(out)
    }
}
