//! How a group of file-name transitions is written.

use crate::name_datum_rec::NameDatumRec;
use crate::name_group_rec::NameGroupRec;
use pol_cursor::{Part, Written};
use std::alloc::AllocError;

impl Written for NameGroupRec {
    ghost use Rattle.pol_trans.specs.NameGroupRecord.{spell_name_group};

    ghost spelling = { spell_name_group };

    fn write(&self, out: &mut Vec<u8>) -> Result<(), AllocError> {
        let name = (
            Part::U32(self.name.len() as u64),
            Part::Bytes(self.name.as_slice()),
        );
        let target = Part::U32(self.target as u64);
        let class = Part::U32(self.class as u64);
        let count = Part::U32(self.datums.len() as u64);
        (name, target, class, (count, &self.datums)).write(out)
    }
}

impl Written for NameDatumRec {
    ghost use Rattle.pol_trans.specs.NameGroupRecord.{spell_name_datum};

    ghost spelling = { spell_name_datum };

    fn write(&self, out: &mut Vec<u8>) -> Result<(), AllocError> {
        (&self.sources, Part::U32(self.default as u64)).write(out)
    }
}
