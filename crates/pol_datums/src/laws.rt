// The two laws of records, each claimed by a function that does nothing.
ghost use Rattle.std.specs.Prelude.{ℕ};
ghost use Rattle.pol_cursor.specs.Laws.{IsReadAgain, IsReadFromSpelling};
ghost use Rattle.pol_symtab.specs.Claims.{Claims};
ghost use Rattle.pol_datums.specs.BooleanRecord.{boolean_at, spell_boolean, BooleanFits};
ghost use Rattle.pol_datums.specs.CategoryRecord.{category_at, spell_category, CategoryFits};
ghost use Rattle.pol_datums.specs.RoleRecord.{role_at, spell_role, RoleFits};
ghost use Rattle.pol_datums.specs.SensitivityRecord.{sensitivity_at, spell_sensitivity, SensitivityFits};
ghost use Rattle.pol_datums.specs.TypeRecord.{type_at, spell_type, TypeFits};

/// A role that is spelled and accepted is read again, and one that was read is spelled by the bytes that it was read from,
/// whatever the records before it have taken.
pub fn roles_have_laws()
    ensures again { (claims : Claims) (nprim : ℕ) → IsReadAgain (role_at claims nprim) spell_role RoleFits }
    ensures spelled { (claims : Claims) (nprim : ℕ) → IsReadFromSpelling (role_at claims nprim) spell_role RoleFits }
{}

/// Both laws of a type, an attribute or an alias.
pub fn types_have_laws()
    ensures again { (claims : Claims) (nprim : ℕ) → IsReadAgain (type_at claims nprim) spell_type TypeFits }
    ensures spelled { (claims : Claims) (nprim : ℕ) → IsReadFromSpelling (type_at claims nprim) spell_type TypeFits }
{}

/// Both laws of a boolean.
pub fn booleans_have_laws()
    ensures again { (claims : Claims) (nprim : ℕ) → IsReadAgain (boolean_at claims nprim) spell_boolean BooleanFits }
    ensures spelled { (claims : Claims) (nprim : ℕ) → IsReadFromSpelling (boolean_at claims nprim) spell_boolean BooleanFits }
{}

/// Both laws of a sensitivity or an alias.
pub fn sensitivities_have_laws()
    ensures again { (claims : Claims) (nprim : ℕ) → IsReadAgain (sensitivity_at claims nprim) spell_sensitivity SensitivityFits }
    ensures spelled { (claims : Claims) (nprim : ℕ) → IsReadFromSpelling (sensitivity_at claims nprim) spell_sensitivity SensitivityFits }
{}

/// Both laws of a category or an alias.
pub fn categories_have_laws()
    ensures again { (claims : Claims) (nprim : ℕ) → IsReadAgain (category_at claims nprim) spell_category CategoryFits }
    ensures spelled { (claims : Claims) (nprim : ℕ) → IsReadFromSpelling (category_at claims nprim) spell_category CategoryFits }
{}
