// The two laws of users, claimed by a function that does nothing.
ghost use Rattle.std.specs.Prelude.{ℕ};
ghost use Rattle.pol_cursor.specs.Laws.{IsReadAgain, IsReadFromSpelling};
ghost use Rattle.pol_symtab.specs.Claims.{Claims};
ghost use Rattle.pol_symbols.specs.UserRecord.{user_at, spell_user, UserFits};

/// A user that is spelled and accepted is read again, and one that was read is spelled by the bytes that it was read from,
/// whatever the records before it have taken.
pub fn users_have_laws()
    ensures again { (claims : Claims) (nprim : ℕ) → IsReadAgain (user_at claims nprim) spell_user UserFits }
    ensures spelled { (claims : Claims) (nprim : ℕ) → IsReadFromSpelling (user_at claims nprim) spell_user UserFits }
{}
