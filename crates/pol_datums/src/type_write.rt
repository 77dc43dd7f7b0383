//! How a type is written.

use crate::type_rec::TypeRec;
use pol_cursor::{Part, Written};
use std::alloc::AllocError;

impl Written for TypeRec {
    ghost use Rattle.pol_datums.specs.TypeRecord.{spell_type};

    ghost spelling = { spell_type };

    fn write(&self, out: &mut Vec<u8>) -> Result<(), AllocError> {
        let len = Part::U32(self.name.len() as u64);
        let value = Part::U32(self.value as u64);
        let properties = Part::U32(self.properties as u64);
        let bounds = Part::U32(self.bounds as u64);
        let name = Part::Bytes(self.name.as_slice());
        (len, value, properties, (bounds, name)).write(out)
    }
}
