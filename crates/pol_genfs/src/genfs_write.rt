//! How a file system of genfs is written, and a path of it.

use crate::genfs_rec::{GenfsPathRec, GenfsRec};
use pol_cursor::{Part, Written};
use std::alloc::AllocError;

impl Written for GenfsRec {
    ghost use Rattle.pol_genfs.specs.GenfsRecord.{spell_genfs};

    ghost spelling = { spell_genfs };

    fn write(&self, out: &mut Vec<u8>) -> Result<(), AllocError> {
        let fstype = (
            Part::U32(self.fstype.len() as u64),
            Part::Bytes(self.fstype.as_slice()),
        );
        let count = Part::U32(self.paths.len() as u64);
        (fstype, (count, &self.paths)).write(out)
    }
}

impl Written for GenfsPathRec {
    ghost use Rattle.pol_genfs.specs.GenfsRecord.{spell_path};

    ghost spelling = { spell_path };

    fn write(&self, out: &mut Vec<u8>) -> Result<(), AllocError> {
        let path = (
            Part::U32(self.path.len() as u64),
            Part::Bytes(self.path.as_slice()),
        );
        let class = Part::U32(self.class as u64);
        (path, class, &self.context).write(out)
    }
}
