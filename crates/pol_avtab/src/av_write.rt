//! How an access vector is written.

use crate::av_rec::{AvPart, AvRec};
use pol_cursor::{Part, Written};
use std::alloc::AllocError;

impl Written for AvRec {
    ghost use Rattle.pol_avtab.specs.AvRecord.{spell_av};

    ghost spelling = { spell_av };

    fn write(&self, out: &mut Vec<u8>) -> Result<(), AllocError> {
        let source = Part::U16(self.source as u64);
        let target = Part::U16(self.target as u64);
        let class = Part::U16(self.class as u64);
        let specified = Part::U16(self.specified as u64);
        (source, target, class, (specified, &self.part)).write(out)
    }
}

impl Written for AvPart {
    ghost use Rattle.pol_avtab.specs.AvRecord.{spell_part};

    ghost spelling = { spell_part };

    fn write(&self, out: &mut Vec<u8>) -> Result<(), AllocError> {
        match self {
            AvPart::Data(mask) => Part::U32(*mask as u64).write(out),
            AvPart::Extended {
                xkind,
                driver,
                bits,
            } => {
                let xkind = Part::U8(*xkind as u64);
                let driver = Part::U8(*driver as u64);
                (xkind, driver, Part::Bytes(bits)).write(out)
            }
        }
    }
}
