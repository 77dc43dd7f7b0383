//! How a permission is written.

use crate::permission_rec::PermissionRec;
use pol_cursor::{Part, Written};
use std::alloc::AllocError;

impl Written for PermissionRec {
    ghost use Rattle.pol_commons.specs.PermissionRecord.{spell_permission};

    ghost spelling = { spell_permission };

    fn write(&self, out: &mut Vec<u8>) -> Result<(), AllocError> {
        let len = Part::U32(self.name.len() as u64);
        let value = Part::U32(self.value as u64);
        let name = Part::Bytes(self.name.as_slice());
        (len, value, name).write(out)
    }
}
