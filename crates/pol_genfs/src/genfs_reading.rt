//! How a file system of genfs is read.

ghost use Rattle.std.specs.Prelude.{◌≡◌, IfOk};
ghost use Rattle.pol_cursor.specs.Outcome.{Answers};
ghost use Rattle.pol_genfs.specs.GenfsRecord.{genfs_at, genfs_in, HasGenfs};

use crate::genfs_path_view::GenfsPath;
use crate::genfs_view::{Genfs, GenfsView};
use pol_cursor::{Cursor, ReadAlone, RecordView, read_name, read_nested};
use pol_fields::Fault;
use pol_fields::fields::{GENFS_FSTYPE, GENFS_LEN, GENFS_NPATHS};

/// The file system at the cursor, which then stands behind it. Takes no memory. `BadName` where a name is empty or has a
/// byte 0.
#[tactic(auto, unfolding(crate::specs::GenfsRecord::genfs_at), using(pol_cursor::proofs::Facts::number_is))]
pub fn read_genfs_entry<'a>(c: &mut Cursor<'a>) -> Result<GenfsView<'a>, Fault>
    ensures exact { Answers (λ entry. entry.value) result genfs_at c.old c.new }
    ensures stands { IfOk result (λ entry. HasGenfs c.old.bytes c.old.place × (entry ≡ record { place = c.old.place; value = genfs_in c.old.bytes c.old.place })) }
{
    let bytes = c.bytes();
    let place = c.place();
    read_name(c, GENFS_LEN, GENFS_FSTYPE)?;
    let n = c.u32(GENFS_NPATHS)?;
    read_nested::<GenfsPath>(c, n, &())?;
    Ok(Genfs::at(bytes, place))
}

impl ReadAlone for Genfs {
    ghost reads = { genfs_at };

    fn pass(c: &mut Cursor<'_>) -> Result<(), Fault> {
        read_genfs_entry(c)?;
        Ok(())
    }
}
