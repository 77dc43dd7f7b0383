// The two laws of records, each claimed by a function that does nothing.
ghost use Rattle.pol_cursor.specs.Laws.{IsReadAgain, IsReadFromSpelling};
ghost use Rattle.pol_file.specs.HeaderRecord.{header_at, spell_header, HeaderFits};

/// A header that is spelled and accepted is read again, and one that was read is spelled by the bytes that it was read from.
pub fn headers_have_laws()
    ensures again { IsReadAgain header_at spell_header HeaderFits }
    ensures spelled { IsReadFromSpelling header_at spell_header HeaderFits }
{}
