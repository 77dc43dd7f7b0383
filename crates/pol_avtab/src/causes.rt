//! The conditions on the fields of an access vector: each gives the cause that refuses a value.

ghost use Rattle.std.specs.Prelude.{◌≡◌};
ghost use Rattle.pol_avtab.specs.AvKeys.{kind_of};
ghost use Rattle.pol_avtab.specs.AvRecord.{is_extended, is_default, is_kind, kind_test, xkind_test};

use crate::av_key::AvKey;
use crate::codes::{
    AVTAB_ALLOWED, AVTAB_AUDITALLOW, AVTAB_AUDITDENY, AVTAB_CHANGE, AVTAB_ENABLED, AVTAB_MEMBER,
    AVTAB_TRANSITION, AVTAB_XPERMS, AVTAB_XPERMS_ALLOWED, AVTAB_XPERMS_AUDITALLOW,
    AVTAB_XPERMS_DONTAUDIT, AVTAB_XPERMS_IOCTLDRIVER, AVTAB_XPERMS_IOCTLFUNCTION,
};
use pol_fields::Cause;

// The bits below the mark.
const KIND_BITS: u16 = AVTAB_ENABLED - 1;

/// What a rule specifies, without the mark.
pub fn kind_of(specified: u16) -> u16
    ensures { result ≡ kind_of specified }
{
    specified & KIND_BITS
}

/// Whether a rule is an extended one.
pub fn is_extended(specified: u16) -> bool
    ensures { result ≡ is_extended specified }
{
    specified & AVTAB_XPERMS != 0
}

/// Whether the data of a rule is a default type.
pub fn is_default(specified: u16) -> bool
    ensures { result ≡ is_default specified }
{
    let kind = kind_of(specified);
    kind == AVTAB_TRANSITION || kind == AVTAB_MEMBER || kind == AVTAB_CHANGE
}

/// Whether a version has the kind.
pub fn is_kind(version: u32, kind: u16) -> bool
    ensures { result ≡ is_kind version kind }
{
    match kind {
        AVTAB_ALLOWED | AVTAB_AUDITALLOW | AVTAB_AUDITDENY => true,
        AVTAB_TRANSITION | AVTAB_MEMBER | AVTAB_CHANGE => true,
        AVTAB_XPERMS_ALLOWED | AVTAB_XPERMS_AUDITALLOW | AVTAB_XPERMS_DONTAUDIT => version >= 30,
        _ => false,
    }
}

/// `BadSpecified` where a version has no such kind, and else the cause not to stand there: in a table, where an earlier rule has
/// the key or none has, or, with none, under a condition.
pub fn kind_cause(version: u32, earlier: Option<bool>, key: AvKey) -> Option<Cause>
    ensures { result ≡ kind_test version earlier key }
{
    match earlier {
        _ if !is_kind(version, key.specified) => Some(Cause::BadSpecified),
        None if version < 34 && is_extended(key.specified) => Some(Cause::ExtendedInCondition),
        Some(true) if !is_extended(key.specified) => Some(Cause::DuplicateRule),
        _ => None,
    }
}

/// `BadExtendedKind` where the numbers of an extended rule are neither those of a driver nor whole drivers.
pub fn xkind_cause(xkind: u8) -> Option<Cause>
    ensures { result ≡ xkind_test xkind }
{
    match xkind {
        AVTAB_XPERMS_IOCTLFUNCTION | AVTAB_XPERMS_IOCTLDRIVER => None,
        _ => Some(Cause::BadExtendedKind),
    }
}
