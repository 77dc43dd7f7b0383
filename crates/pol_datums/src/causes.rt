// The conditions of fields: the first cause to refuse a value.
ghost use Rattle.std.specs.Prelude.{◌≡◌};
ghost use Rattle.pol_datums.specs.CategoryRecord.{isalias_test};
ghost use Rattle.pol_datums.specs.SensitivityRecord.{sens_test};
ghost use Rattle.pol_datums.specs.TypeRecord.{is_attribute, is_primary_type, properties_test};

use crate::flags::is_primary_flag;
use pol_fields::Cause;
use pol_symtab::{Taken, primary_value_cause};

/// Whether a type has the bit of attributes.
pub fn is_attribute(properties: u32) -> bool
    ensures { result ≡ is_attribute properties }
{
    properties / 2 % 2 == 1
}

/// Whether a type is no alias.
pub fn is_primary_type(properties: u32) -> bool
    ensures { result ≡ is_primary_type properties }
{
    properties % 2 == 1 || is_attribute(properties)
}

/// `DuplicateValue` where a type is primary and its value is taken.
pub fn properties_cause(taken: &Taken<'_>, value: u32, properties: u32) -> Option<Cause>
    ensures { result ≡ properties_test taken.now value properties }
{
    primary_value_cause(taken, is_primary_type(properties), value)
}

/// `ValueOut` where a sensitivity's value is not 1 to `nprim`, else `DuplicateValue` where it is primary and its value is taken.
pub fn sens_cause(nprim: u32, taken: &Taken<'_>, isalias: u32, sens: u32) -> Option<Cause>
    ensures { result ≡ sens_test nprim taken.now isalias sens }
{
    if sens == 0 || sens > nprim {
        return Some(Cause::ValueOut);
    }
    primary_value_cause(taken, is_primary_flag(isalias), sens)
}

/// `BadFlag` where a category's isalias is neither 0 nor 1, else `DuplicateValue` where it is primary and its value is taken.
pub fn isalias_cause(taken: &Taken<'_>, value: u32, isalias: u32) -> Option<Cause>
    ensures { result ≡ isalias_test taken.now value isalias }
{
    if isalias > 1 {
        return Some(Cause::BadFlag);
    }
    primary_value_cause(taken, is_primary_flag(isalias), value)
}
