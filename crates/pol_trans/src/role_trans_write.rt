//! How a role transition is written.

use crate::role_trans_rec::RoleTransRec;
use pol_cursor::{Part, Written};
use std::alloc::AllocError;

impl Written for RoleTransRec {
    ghost use Rattle.pol_trans.specs.RoleTransRecord.{spell_role_trans};

    ghost spelling = { spell_role_trans };

    fn write(&self, out: &mut Vec<u8>) -> Result<(), AllocError> {
        let role = Part::U32(self.role as u64);
        let type_value = Part::U32(self.type_value as u64);
        let newrole = Part::U32(self.newrole as u64);
        let class = Part::U32(self.class as u64);
        (role, type_value, newrole, class).write(out)
    }
}
