//! The conditions of the parts that every symbol record has.

ghost use Rattle.std.specs.Prelude.{◌≡◌};
ghost use Rattle.std.specs.List.{list_all};
ghost use Rattle.pol_symtab.specs.SymbolFields.{length_test, is_name_byte, name_test, value_test, new_value_test, primary_value_test};

use crate::taken::Taken;
use pol_fields::Cause;

/// `EmptyName` where a name would have no byte.
pub fn length_cause(len: u32) -> Option<Cause>
    ensures { result ≡ length_test len }
{
    if len == 0 {
        Some(Cause::EmptyName)
    } else {
        None
    }
}

/// `BadNameByte` where a byte lies outside 0x21 to 0x7E, else `DuplicateName` where the name is taken.
pub fn name_cause(taken: &Taken<'_>, name: &[u8]) -> Option<Cause>
    ensures { result ≡ name_test taken.now name.now }
{
    if !is_name(name) {
        return Some(Cause::BadNameByte);
    }
    if taken.has_name(name) {
        Some(Cause::DuplicateName)
    } else {
        None
    }
}

/// Whether each byte of a name lies in 0x21 to 0x7E.
pub fn is_name(name: &[u8]) -> bool
    ensures { result ≡ list_all is_name_byte name.now }
{
    name.iter().all(|byte| is_name_byte(*byte))
}

fn is_name_byte(byte: u8) -> bool
    ensures { result ≡ is_name_byte byte }
{
    byte >= 0x21 && byte <= 0x7E
}

/// `ValueOut` where a value is not 1 to `nprim`.
pub fn value_cause(nprim: u32, value: u32) -> Option<Cause>
    ensures { result ≡ value_test nprim value }
{
    if value >= 1 && value <= nprim {
        None
    } else {
        Some(Cause::ValueOut)
    }
}

/// `ValueOut` where a value is not 1 to `nprim`, else `DuplicateValue` where it is taken.
pub fn new_value_cause(nprim: u32, taken: &Taken<'_>, value: u32) -> Option<Cause>
    ensures { result ≡ new_value_test nprim taken.now value }
{
    if value == 0 || value > nprim {
        return Some(Cause::ValueOut);
    }
    if taken.has_value(value) {
        Some(Cause::DuplicateValue)
    } else {
        None
    }
}

/// `DuplicateValue` where a primary record has a value that is taken.
pub fn primary_value_cause(taken: &Taken<'_>, primary: bool, value: u32) -> Option<Cause>
    ensures { result ≡ primary_value_test taken.now primary value }
{
    if primary && taken.has_value(value) {
        Some(Cause::DuplicateValue)
    } else {
        None
    }
}
