//! How a role allow is written.

use crate::role_allow_rec::RoleAllowRec;
use pol_cursor::{Part, Written};
use std::alloc::AllocError;

impl Written for RoleAllowRec {
    ghost use Rattle.pol_trans.specs.RoleAllowRecord.{spell_role_allow};

    ghost spelling = { spell_role_allow };

    fn write(&self, out: &mut Vec<u8>) -> Result<(), AllocError> {
        let role = Part::U32(self.role as u64);
        let newrole = Part::U32(self.newrole as u64);
        (role, newrole).write(out)
    }
}
