// The laws of classes, each claimed by a function that does nothing.
ghost use Rattle.std.specs.Prelude.{ℕ, ◌≡◌};
ghost use Rattle.pol_cursor.specs.Laws.{IsReadAgain, IsReadFromSpelling};
ghost use Rattle.pol_symtab.specs.Claims.{Claims};
ghost use Rattle.pol_symtab.specs.SymbolTables.{Table};
ghost use Rattle.pol_commons.specs.declared.common_rec.CommonRec.{CommonRec};
ghost use Rattle.pol_classes.specs.ClassRecord.{class_at, spell_class, ClassFits};
ghost use Rattle.pol_classes.specs.ConstraintLists.{has_type_sets};

/// A class that is spelled and accepted is read again, and one that was read is spelled by the bytes that it was read from,
/// whatever is taken and whatever commons there are.
pub fn classes_have_laws()
    ensures again { (version : ℕ) (taken : Claims) (nprim : ℕ) (commons : Table CommonRec) → IsReadAgain (class_at version taken nprim commons) spell_class (ClassFits version) }
    ensures spelled { (version : ℕ) (taken : Claims) (nprim : ℕ) (commons : Table CommonRec) → IsReadFromSpelling (class_at version taken nprim commons) spell_class (ClassFits version) }
{}

/// Classes are read alike at all versions from 29 on, and at all before, since they differ in their constraints alone.
pub fn classes_have_two_forms()
    ensures { (v w : ℕ) → has_type_sets v ≡ has_type_sets w → class_at v ≡ class_at w }
{}
