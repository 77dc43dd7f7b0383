//! How a file-name transition is written.

use crate::name_trans_rec::NameTransRec;
use pol_cursor::{Part, Written};
use std::alloc::AllocError;

impl Written for NameTransRec {
    ghost use Rattle.pol_trans.specs.NameTransRecord.{spell_name_trans};

    ghost spelling = { spell_name_trans };

    fn write(&self, out: &mut Vec<u8>) -> Result<(), AllocError> {
        let name = (
            Part::U32(self.name.len() as u64),
            Part::Bytes(self.name.as_slice()),
        );
        let source = Part::U32(self.source as u64);
        let target = Part::U32(self.target as u64);
        let class = Part::U32(self.class as u64);
        let default = Part::U32(self.default as u64);
        (name, source, target, (class, default)).write(out)
    }
}
