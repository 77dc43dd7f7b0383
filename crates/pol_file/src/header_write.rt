//! How a header is written.

ghost use Rattle.pol_cursor.specs.Writing.{Writes};
ghost use Rattle.pol_file.specs.HeaderRecord.{spell_header};

use crate::header_causes::{MAGIC, context_tables};
use crate::header_rec::HeaderRec;
use pol_cursor::{Part, Written};
use pol_fields::codes::SYM_NUM;
use std::alloc::AllocError;

/// Appends the 32 bytes of a header. The number of context tables is that of its version. Out of memory, a beginning of them was
/// appended. It is for a header by itself; a tree writes its own before its other parts.
pub fn write_header(header: &HeaderRec, out: &mut Vec<u8>) -> Result<(), AllocError>
    ensures { Writes out.old.items out.new.items (spell_header header.now) result }
{
    header.write(out)
}

impl Written for HeaderRec {
    ghost use Rattle.pol_file.specs.HeaderRecord.{spell_header};

    ghost spelling = { spell_header };

    fn write(&self, out: &mut Vec<u8>) -> Result<(), AllocError> {
        let magic = Part::U32(MAGIC as u64);
        let identity = (magic, Part::U32(8), Part::Bytes(b"SE Linux"));
        let version = Part::U32(self.version as u64);
        let config = Part::U32(self.config as u64);
        let tables = Part::U32(context_tables(self.version) as u64);
        let counts = (Part::U32(SYM_NUM as u64), tables);
        (identity, version, config, counts).write(out)
    }
}
