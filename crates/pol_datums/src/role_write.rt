//! How a role is written.

use crate::role_rec::RoleRec;
use pol_cursor::{Part, Written};
use std::alloc::AllocError;

impl Written for RoleRec {
    ghost use Rattle.pol_datums.specs.RoleRecord.{spell_role};

    ghost spelling = { spell_role };

    fn write(&self, out: &mut Vec<u8>) -> Result<(), AllocError> {
        let len = Part::U32(self.name.len() as u64);
        let value = Part::U32(self.value as u64);
        let bounds = Part::U32(self.bounds as u64);
        let name = Part::Bytes(self.name.as_slice());
        (len, value, bounds, (name, &self.dominates, &self.types)).write(out)
    }
}
