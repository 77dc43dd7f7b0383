//! The laws of symbol tables, each claimed by a function that does nothing.

ghost use Rattle.std.specs.Prelude.{◌≡◌, ℕ, ◌<◌, ◌↔◌, true, List, Some};
ghost use Rattle.pol_cursor.specs.Laws.{IsReadAgain, IsReadFromSpelling};
ghost use Rattle.pol_cursor.specs.Outcome.{Got, and_then};
ghost use Rattle.pol_cursor.specs.References.{Placed};
ghost use Rattle.pol_symtab.specs.SymbolTables.{bare, bare_table_at, primary_name, rank_of, is_below, spell_table, table_at, TableFits};

use crate::symbol::{Symbol, SymbolKind};

/// A table that is spelled and accepted is read again, and one that was read is spelled by the bytes that it was read from,
/// where its records do, and whatever its first record is read under. It is read with the places of its records as without them.
pub fn tables_have_laws<'a, K: Symbol<'a>>()
    ensures again { (start : ℕ → K.Context) → ((context : K.Context) → IsReadAgain (K.reads context) K.spelling K.fits) → IsReadAgain (bare_table_at K.reads K.after start) (spell_table K.spelling) (TableFits K.fits) }
    ensures spelled { (start : ℕ → K.Context) → ((context : K.Context) → IsReadFromSpelling (K.reads context) K.spelling K.fits) → IsReadFromSpelling (bare_table_at K.reads K.after start) (spell_table K.spelling) (TableFits K.fits) }
    ensures unplaced { (start : ℕ → K.Context) (bytes : List ℕ) (place : ℕ) → and_then (table_at K.reads K.after start bytes place) (λ table next. Got (bare table) next) ≡ bare_table_at K.reads K.after start bytes place }
{}

/// Ranks order the declared values of a table as the bytes of their names do.
pub fn ranks_have_law<K: SymbolKind>()
    ensures { (records : List (Placed K.Owned)) (a b : ℕ) (x y : List ℕ) (m n : ℕ) → primary_name K.name_of K.is_primary K.value_of records a ≡ Some x → primary_name K.name_of K.is_primary K.value_of records b ≡ Some y → rank_of K.name_of K.is_primary K.value_of records a ≡ Some m → rank_of K.name_of K.is_primary K.value_of records b ≡ Some n → (m < n) ↔ (is_below x y ≡ true) }
{}
