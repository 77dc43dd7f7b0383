// The optional parts of records and of lists, and what their numbers are known to be.
ghost use Rattle.std.specs.Prelude.{◌≡◌, ℕ, IfSome, Option, None, length, option_and_then};
ghost use Rattle.std.specs.List.{AllByRecursion};
ghost use Rattle.pol_fields.specs.declared.Field.{Field};
ghost use Rattle.pol_tree.specs.OptionalParts.{wrong_if, shape_of_part, shape_of_list, first_of, first_in};
ghost use Rattle.pol_tree.specs.Inner.Fitting.{IsFitting, AreFitting};

use pol_cursor::{OwnedList, Written};
use pol_fields::Field;

/// A record whose numbers are of types no wider than their fields, and which may have parts that stand in the file or not.
pub trait Fitting: Written {
    /// The field of the first wrong optional part, in the order of the file, in a policy of a version.
    ghost shape: { ℕ → Self → Option Field };

    /// Its numbers fit their fields, and it has the optional parts of its kind.
    ghost fits: { ℕ → Self → Type 0 };

    /// The field of the first wrong optional part, in a policy of that version. Each number is read, which is how a proof learns its
    /// range.
    fn wrong_part(&self, version: u32) -> Option<Field>
        ensures shape { result ≡ shape version self.now }
        ensures fits { IsFitting (shape version) (fits version) Self.spelling self.now };
}

/// The field of the first wrong optional part of the records of a list, one after the other.
#[tactic(auto, using(crate::proofs::FittingLists::list_fits))]
pub fn wrong_in<T: Fitting + Drop>(list: &OwnedList<T>, version: u32) -> Option<Field>
    ensures shape { result ≡ first_in (T.shape version) list.now }
    ensures fits { AreFitting (T.shape version) (T.fits version) T.spelling list.now }
{
    wrong_record(list.as_slice(), version)
}

// The field of the first wrong optional part of records, each of which was looked at where none is wrong.
fn wrong_record<T: Fitting>(records: &[T], version: u32) -> Option<Field>
    ensures shape { result ≡ first_in (T.shape version) records.now }
    ensures fits { result ≡ None → AllByRecursion (IsFitting (T.shape version) (T.fits version) T.spelling) records.now }
{
    for record in records {
        match record.wrong_part(version) {
            Some(field) => return Some(field),
            None => {}
        }
    }
    None
}

/// The field of the first wrong optional part within a part, where that is there.
pub fn wrong_within<T: Fitting>(part: &Option<T>, version: u32) -> Option<Field>
    ensures shape { result ≡ option_and_then (T.shape version) part.now }
    ensures fits { IfSome part.now (IsFitting (T.shape version) (T.fits version) T.spelling) }
{
    match part {
        Some(part) => part.wrong_part(version),
        None => None,
    }
}

/// The first of the parts that is wrong.
pub fn first_wrong(parts: &[Option<Field>]) -> Option<Field>
    ensures { result ≡ first_of parts.now }
{
    for part in parts {
        match *part {
            Some(field) => return Some(field),
            None => {}
        }
    }
    None
}

/// A field, where it is wrong.
pub fn wrong_where(wrong: bool, field: Field) -> Option<Field>
    ensures { result ≡ wrong_if wrong field }
{
    if wrong { Some(field) } else { None }
}

/// The field of a part that is not there and has to be, or is there and must not be.
pub fn wrong_presence<T>(there: bool, part: &Option<T>, field: Field) -> Option<Field>
    ensures { result ≡ shape_of_part there part.now field }
{
    wrong_where(part.is_some() != there, field)
}

/// The field of a list that is not in the file and is not empty.
pub fn wrong_list<T: Drop>(there: bool, list: &OwnedList<T>, field: Field) -> Option<Field>
    ensures { result ≡ shape_of_list there list.now field }
{
    wrong_where(!there && !list.is_empty(), field)
}

/// Reads an array of bytes, which has that many. It has no effect.
pub fn look_at_bytes<const WIDTH: usize>(bytes: &[u8; WIDTH])
    ensures { length bytes.now ≡ WIDTH }
{
    let _bytes = *bytes;
}
