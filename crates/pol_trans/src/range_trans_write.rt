//! How a range transition is written.

use crate::range_trans_rec::RangeTransRec;
use pol_cursor::{Part, Written};
use std::alloc::AllocError;

impl Written for RangeTransRec {
    ghost use Rattle.pol_trans.specs.RangeTransRecord.{spell_range_trans};

    ghost spelling = { spell_range_trans };

    fn write(&self, out: &mut Vec<u8>) -> Result<(), AllocError> {
        let source = Part::U32(self.source as u64);
        let target = Part::U32(self.target as u64);
        let class = Part::U32(self.class as u64);
        (source, target, class, &self.range).write(out)
    }
}
