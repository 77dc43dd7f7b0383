// The two laws of the parts that records are made of, each claimed by a function that does nothing.
ghost use Rattle.std.specs.Prelude.{◌≡◌, ◌<◌, ◌^◌, ℕ, List, length};
ghost use Rattle.pol_fields.specs.declared.field.Field.{Field};
ghost use Rattle.pol_cursor.specs.Laws.{IsReadAgain, IsReadFromSpelling};
ghost use Rattle.pol_cursor.specs.FileNames.{name_at, spell_name, NameFits};
ghost use Rattle.pol_cursor.specs.Contexts.{records_after};
ghost use Rattle.pol_cursor.specs.Parts.{number, string, list_of, records_at};
ghost use Rattle.pol_cursor.specs.References.{placed, without_places};
ghost use Rattle.pol_cursor.specs.Spelling.{bytes_of};

use crate::{ReadAfter, ReadAlone};

/// A number that is spelled is read again, and one that was read is spelled by the bytes that it was read from.
pub fn numbers_have_laws()
    ensures again { (field : Field) (width : ℕ) → IsReadAgain (number field width) (bytes_of width) (λ n. n < 256 ^ width) }
    ensures spelled { (field : Field) (width : ℕ) → IsReadFromSpelling (number field width) (bytes_of width) (λ n. n < 256 ^ width) }
{}

/// Both laws of bytes.
pub fn strings_have_laws()
    ensures again { (field : Field) (n : ℕ) → IsReadAgain (string field n) (λ part. part) (λ part. length part ≡ n) }
    ensures spelled { (field : Field) (n : ℕ) → IsReadFromSpelling (string field n) (λ part. part) (λ part. length part ≡ n) }
{}

/// Both laws of a name behind its length.
pub fn names_have_laws()
    ensures again { (len_field name_field : Field) → IsReadAgain (name_at len_field name_field) spell_name NameFits }
    ensures spelled { (len_field name_field : Field) → IsReadFromSpelling (name_at len_field name_field) spell_name NameFits }
{}

/// A list that is read with the places of its records is the list that is read without them.
pub fn lists_have_laws<K: ReadAlone>()
    ensures unplaced { (n : ℕ) (bytes : List ℕ) (place : ℕ) → without_places (records_at (placed K.reads) n bytes place) ≡ records_at K.reads n bytes place }
{}

/// A list of records that are read under what the ones before them made of a context, read with places and without them.
pub fn dependent_lists_have_laws<'a, K: ReadAfter<'a>>()
    ensures unplaced { (n : ℕ) (context : K.Context) (bytes : List ℕ) (place : ℕ) → without_places (records_after K.reads K.after n context bytes place) ≡ list_of (λ left context. K.reads context) K.after n context bytes place }
{}
