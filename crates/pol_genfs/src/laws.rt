// The two laws of file systems of genfs and of their list, claimed by a function that does nothing.
ghost use Rattle.pol_fields.specs.declared.fields.TheConstants.{GENFS_COUNT};
ghost use Rattle.pol_cursor.specs.Laws.{IsReadAgain, IsReadFromSpelling};
ghost use Rattle.pol_cursor.specs.Parts.{counted, records_at, spell_counted, CountedFits};
ghost use Rattle.pol_genfs.specs.GenfsRecord.{genfs_at, spell_genfs, GenfsFits};

/// A file system with its paths that is spelled and accepted is read again, and one that was read is spelled by the bytes
/// that it was read from. So it is with the list of such file systems.
pub fn genfs_have_laws()
    ensures again { IsReadAgain genfs_at spell_genfs GenfsFits }
    ensures spelled { IsReadFromSpelling genfs_at spell_genfs GenfsFits }
    ensures list_again { IsReadAgain (counted GENFS_COUNT (records_at genfs_at)) (spell_counted spell_genfs) (CountedFits GenfsFits) }
    ensures list_spelled { IsReadFromSpelling (counted GENFS_COUNT (records_at genfs_at)) (spell_counted spell_genfs) (CountedFits GenfsFits) }
{}
