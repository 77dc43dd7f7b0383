// The two laws of records, each claimed by a function that does nothing.
ghost use Rattle.std.specs.Prelude.{ℕ, List};
ghost use Rattle.pol_cursor.specs.Laws.{IsReadAgain, IsReadFromSpelling};
ghost use Rattle.pol_symtab.specs.Claims.{Claims};
ghost use Rattle.pol_commons.specs.declared.permission_rec.PermissionRec.{PermissionRec};
ghost use Rattle.pol_commons.specs.PermissionRecord.{permission_at, spell_permission, PermissionFits};
ghost use Rattle.pol_commons.specs.CommonRecord.{common_at, spell_common, CommonFits};

/// A permission that is spelled and accepted is read again, and one that was read is spelled by the bytes that it was read
/// from, whatever permissions are listed and inherited.
pub fn permissions_have_laws()
    ensures again { (listed inherited : List PermissionRec) → IsReadAgain (permission_at listed inherited) spell_permission PermissionFits }
    ensures spelled { (listed inherited : List PermissionRec) → IsReadFromSpelling (permission_at listed inherited) spell_permission PermissionFits }
{}

/// Both laws of a common, whatever is taken.
pub fn commons_have_laws()
    ensures again { (taken : Claims) (nprim : ℕ) → IsReadAgain (common_at taken nprim) spell_common CommonFits }
    ensures spelled { (taken : Claims) (nprim : ℕ) → IsReadFromSpelling (common_at taken nprim) spell_common CommonFits }
{}
