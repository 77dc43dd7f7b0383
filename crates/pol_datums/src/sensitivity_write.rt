//! How a sensitivity is written.

use crate::sensitivity_rec::SensitivityRec;
use pol_cursor::{Part, Written};
use std::alloc::AllocError;

impl Written for SensitivityRec {
    ghost use Rattle.pol_datums.specs.SensitivityRecord.{spell_sensitivity};

    ghost spelling = { spell_sensitivity };

    fn write(&self, out: &mut Vec<u8>) -> Result<(), AllocError> {
        let len = Part::U32(self.name.len() as u64);
        let isalias = Part::U32(self.isalias as u64);
        let name = Part::Bytes(self.name.as_slice());
        let sens = Part::U32(self.sens as u64);
        (len, isalias, name, (sens, &self.categories)).write(out)
    }
}
