//! How a level is written.

use crate::level_rec::LevelRec;
use pol_cursor::{Part, Written};
use std::alloc::AllocError;

impl Written for LevelRec {
    ghost use Rattle.pol_mls.specs.LevelRecord.{spell_level};

    ghost spelling = { spell_level };

    fn write(&self, out: &mut Vec<u8>) -> Result<(), AllocError> {
        (Part::U32(self.sens as u64), &self.categories).write(out)
    }
}
