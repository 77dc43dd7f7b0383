// The two laws of records, each claimed by a function that does nothing.
ghost use Rattle.pol_fields.specs.declared.fields.TheConstants.{ROLETRANS_COUNT, ROLEALLOW_COUNT, NAMETRANS_COUNT, NAMEGROUP_COUNT, RANGETRANS_COUNT};
ghost use Rattle.pol_cursor.specs.Laws.{IsReadAgain, IsReadFromSpelling};
ghost use Rattle.pol_cursor.specs.Parts.{counted, records_at, spell_counted, CountedFits};
ghost use Rattle.pol_trans.specs.RoleAllowRecord.{role_allow_at, spell_role_allow, RoleAllowFits};
ghost use Rattle.pol_trans.specs.RoleTransRecord.{role_trans_at, spell_role_trans, RoleTransFits};
ghost use Rattle.pol_trans.specs.NameTransRecord.{name_trans_at, spell_name_trans, NameTransFits};
ghost use Rattle.pol_trans.specs.NameGroupRecord.{name_group_at, spell_name_group, NameGroupFits};
ghost use Rattle.pol_trans.specs.RangeTransRecord.{range_trans_at, spell_range_trans, RangeTransFits};

/// A role allow that is spelled and accepted is read again, and one that was read is spelled by the bytes that it was read
/// from. The same holds of the list of them behind its count.
pub fn role_allows_have_laws()
    ensures again { IsReadAgain role_allow_at spell_role_allow RoleAllowFits }
    ensures spelled { IsReadFromSpelling role_allow_at spell_role_allow RoleAllowFits }
    ensures list_again { IsReadAgain (counted ROLEALLOW_COUNT (records_at role_allow_at)) (spell_counted spell_role_allow) (CountedFits RoleAllowFits) }
    ensures list_spelled { IsReadFromSpelling (counted ROLEALLOW_COUNT (records_at role_allow_at)) (spell_counted spell_role_allow) (CountedFits RoleAllowFits) }
{}

/// A role transition that is spelled and accepted is read again, and one that was read is spelled by the bytes that it was read
/// from, and so is the list of role transitions behind its count.
pub fn role_transitions_have_laws()
    ensures again { IsReadAgain role_trans_at spell_role_trans RoleTransFits }
    ensures spelled { IsReadFromSpelling role_trans_at spell_role_trans RoleTransFits }
    ensures list_again { IsReadAgain (counted ROLETRANS_COUNT (records_at role_trans_at)) (spell_counted spell_role_trans) (CountedFits RoleTransFits) }
    ensures list_spelled { IsReadFromSpelling (counted ROLETRANS_COUNT (records_at role_trans_at)) (spell_counted spell_role_trans) (CountedFits RoleTransFits) }
{}

/// A file-name transition that is spelled and accepted is read again, and one that was read is spelled by the bytes that it was
/// read from, and so is the list of file-name transitions behind its count.
pub fn name_transitions_have_laws()
    ensures again { IsReadAgain name_trans_at spell_name_trans NameTransFits }
    ensures spelled { IsReadFromSpelling name_trans_at spell_name_trans NameTransFits }
    ensures list_again { IsReadAgain (counted NAMETRANS_COUNT (records_at name_trans_at)) (spell_counted spell_name_trans) (CountedFits NameTransFits) }
    ensures list_spelled { IsReadFromSpelling (counted NAMETRANS_COUNT (records_at name_trans_at)) (spell_counted spell_name_trans) (CountedFits NameTransFits) }
{}

/// A group of file-name transitions that is spelled and accepted is read again, and one that was read is spelled by the bytes
/// that it was read from, and so is the list of such groups behind its count.
pub fn name_groups_have_laws()
    ensures again { IsReadAgain name_group_at spell_name_group NameGroupFits }
    ensures spelled { IsReadFromSpelling name_group_at spell_name_group NameGroupFits }
    ensures list_again { IsReadAgain (counted NAMEGROUP_COUNT (records_at name_group_at)) (spell_counted spell_name_group) (CountedFits NameGroupFits) }
    ensures list_spelled { IsReadFromSpelling (counted NAMEGROUP_COUNT (records_at name_group_at)) (spell_counted spell_name_group) (CountedFits NameGroupFits) }
{}

/// A range transition that is spelled and accepted is read again, and one that was read is spelled by the bytes that it was
/// read from, and so is the list of range transitions behind its count.
pub fn range_transitions_have_laws()
    ensures again { IsReadAgain range_trans_at spell_range_trans RangeTransFits }
    ensures spelled { IsReadFromSpelling range_trans_at spell_range_trans RangeTransFits }
    ensures list_again { IsReadAgain (counted RANGETRANS_COUNT (records_at range_trans_at)) (spell_counted spell_range_trans) (CountedFits RangeTransFits) }
    ensures list_spelled { IsReadFromSpelling (counted RANGETRANS_COUNT (records_at range_trans_at)) (spell_counted spell_range_trans) (CountedFits RangeTransFits) }
{}
