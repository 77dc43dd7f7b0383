//! How a user is written.

use crate::user_rec::UserRec;
use pol_cursor::{Part, Written};
use std::alloc::AllocError;

impl Written for UserRec {
    ghost use Rattle.pol_symbols.specs.UserRecord.{spell_user};

    ghost spelling = { spell_user };

    fn write(&self, out: &mut Vec<u8>) -> Result<(), AllocError> {
        let len = Part::U32(self.name.len() as u64);
        let value = Part::U32(self.value as u64);
        let bounds = Part::U32(self.bounds as u64);
        let name = Part::Bytes(self.name.as_slice());
        let levels = (&self.range, &self.level);
        (len, value, bounds, (name, &self.roles, levels)).write(out)
    }
}
