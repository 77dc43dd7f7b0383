//! How a common is written.

use crate::common_rec::CommonRec;
use pol_cursor::{Part, Written};
use std::alloc::AllocError;

impl Written for CommonRec {
    ghost use Rattle.pol_commons.specs.CommonRecord.{spell_common};

    ghost spelling = { spell_common };

    fn write(&self, out: &mut Vec<u8>) -> Result<(), AllocError> {
        let len = Part::U32(self.name.len() as u64);
        let value = Part::U32(self.value as u64);
        let nprim = Part::U32(self.nprim as u64);
        let count = Part::U32(self.permissions.len() as u64);
        let name = Part::Bytes(self.name.as_slice());
        (len, value, nprim, (count, name, &self.permissions)).write(out)
    }
}
