//! The conditions of permissions and commons.

ghost use Rattle.std.specs.Prelude.{◌≡◌};
ghost use Rattle.pol_symtab.specs.SymbolFields.{name_test, new_value_test};
ghost use Rattle.pol_commons.specs.PermissionRecord.{claims_before};
ghost use Rattle.pol_commons.specs.CommonRecord.{permission_count_test};

use crate::permission_list::PermissionList;
use pol_fields::Cause;
use pol_symtab::is_name;

/// The greatest value of a permission.
pub const PERMISSIONS: u32 = 32;

/// `ValueOut` where the value of a permission is not 1 to 32, else `DuplicateValue` where it is taken.
pub fn value_cause(
    listed: &PermissionList<'_>,
    inherited: &PermissionList<'_>,
    value: u32,
) -> Option<Cause>
    ensures { result ≡ new_value_test 32 (claims_before listed.now inherited.now) value }
{
    if value == 0 || value > PERMISSIONS {
        return Some(Cause::ValueOut);
    }
    if listed.has_value(value) || inherited.has_value(value) {
        Some(Cause::DuplicateValue)
    } else {
        None
    }
}

/// `BadNameByte` where a byte lies outside 0x21 to 0x7E, else `DuplicateName` where the name of a permission is taken.
pub fn name_cause(
    listed: &PermissionList<'_>,
    inherited: &PermissionList<'_>,
    name: &[u8],
) -> Option<Cause>
    ensures { result ≡ name_test (claims_before listed.now inherited.now) name.now }
{
    if !is_name(name) {
        return Some(Cause::BadNameByte);
    }
    if listed.has_name(name) || inherited.has_name(name) {
        Some(Cause::DuplicateName)
    } else {
        None
    }
}

/// `TableTooLarge` where more than 32 permissions are declared.
pub fn permission_count_cause(nprim: u32) -> Option<Cause>
    ensures { result ≡ permission_count_test nprim }
{
    if nprim <= PERMISSIONS {
        None
    } else {
        Some(Cause::TableTooLarge)
    }
}
