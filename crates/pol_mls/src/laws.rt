// The two laws of records, each claimed by a function that does nothing.
ghost use Rattle.pol_cursor.specs.Laws.{IsReadAgain, IsReadFromSpelling};
ghost use Rattle.pol_mls.specs.LevelRecord.{level_at, spell_level, LevelFits};
ghost use Rattle.pol_mls.specs.RangeRecord.{range_at, spell_range, RangeFits};

/// A level that is spelled and accepted is read again, and one that was read is spelled by the bytes that it was read from.
pub fn levels_have_laws()
    ensures again { IsReadAgain level_at spell_level LevelFits }
    ensures spelled { IsReadFromSpelling level_at spell_level LevelFits }
{}

/// Both laws of a range, whose high level stands there exactly where n is 2.
pub fn ranges_have_laws()
    ensures again { IsReadAgain range_at spell_range RangeFits }
    ensures spelled { IsReadFromSpelling range_at spell_range RangeFits }
{}
