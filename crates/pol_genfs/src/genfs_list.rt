//! The list of the file systems of genfs.

ghost use Rattle.pol_cursor.specs.Outcome.{Yields};
ghost use Rattle.pol_cursor.specs.Parts.{counted, records_at};
ghost use Rattle.pol_cursor.specs.References.{placed};
ghost use Rattle.pol_genfs.specs.GenfsRecord.{genfs_at};

use crate::genfs_view::Genfs;
use pol_cursor::{Cursor, ReadError, Records, read_counted};
use pol_fields::fields::GENFS_COUNT;
use std::alloc::Global;

/// The file systems of genfs, in file order.
pub type GenfsList<'a> = Records<'a, Genfs>;

/// Reads the count and the file systems of genfs, which are the same in each version.
pub fn read_genfs<'a>(
    alloc: Global,
    c: &mut Cursor<'a>,
    _version: u32,
) -> Result<GenfsList<'a>, ReadError>
    ensures { Yields (λ list. list) result (counted GENFS_COUNT (records_at (placed genfs_at))) c.old c.new }
{
    read_counted(alloc, c, GENFS_COUNT)
}
