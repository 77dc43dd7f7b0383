// The two laws of records, each claimed by a function that does nothing.
ghost use Rattle.std.specs.Prelude.{◌≡◌, ℕ, None, Some, List};
ghost use Rattle.pol_cursor.specs.Laws.{IsReadAgain, IsReadFromSpelling};
ghost use Rattle.pol_cursor.specs.References.{without_places};
ghost use Rattle.pol_avtab.specs.declared.av_key.AvKey.{AvKey};
ghost use Rattle.pol_avtab.specs.AvRecord.{av_at, spell_av, AvFits};
ghost use Rattle.pol_avtab.specs.AvTables.{table_at, plain_table_at, spell_table, TableFits};

/// An access vector that is spelled and accepted is read again, and one that was read is spelled by the bytes that it was
/// read from: in a table behind rules with any keys, and under a condition.
pub fn access_vectors_have_laws()
    ensures table_again { (version : ℕ) (keys : List AvKey) → IsReadAgain (av_at version (Some keys)) spell_av AvFits }
    ensures table_spelled { (version : ℕ) (keys : List AvKey) → IsReadFromSpelling (av_at version (Some keys)) spell_av AvFits }
    ensures condition_again { (version : ℕ) → IsReadAgain (av_at version None) spell_av AvFits }
    ensures condition_spelled { (version : ℕ) → IsReadFromSpelling (av_at version None) spell_av AvFits }
{}

/// A table of access vectors that is spelled and accepted is read again, and one that was read is spelled by the bytes that it was
/// read from. It is read with the places of its rules as without them.
pub fn tables_have_laws()
    ensures again { (version : ℕ) → IsReadAgain (plain_table_at version) spell_table TableFits }
    ensures spelled { (version : ℕ) → IsReadFromSpelling (plain_table_at version) spell_table TableFits }
    ensures unplaced { (version : ℕ) (bytes : List ℕ) (place : ℕ) → without_places (table_at version bytes place) ≡ plain_table_at version bytes place }
{}
