//! What can be wrong at a field.

ghost use Rattle.std.specs.Prelude.{◌≡◌};

use crate::field::Field;
use crate::table_kind::TableKind;

/// What is wrong at a field.
#[derive(Clone, Copy, Debug, PartialEq, Eq)]
pub enum Cause {
    /// Fewer bytes are left than the field needs.
    Short,
    /// Bytes are left after the end.
    Trailing,
    /// The magic number is another.
    BadMagic,
    /// The identity is not `SE Linux`, or not 8 bytes long.
    BadIdentity,
    /// The version is not 28 to 34.
    UnsupportedVersion,
    /// The policy has no MLS.
    NotMls,
    /// Unknown classes are both refused and allowed.
    BadUnknown,
    /// The number of symbol or context tables is not that of the version.
    BadCounts,
    /// A bitmap's maps are not of 64 bits.
    BadMapUnit,
    /// A bitmap's highbit is no multiple of 64.
    BadHighbit,
    /// A bitmap's count is 0 and its highbit is not, or the other way round.
    BadCount,
    /// A node's start is no multiple of 64, not above the one before, or does not fit the highbit.
    BadStart,
    /// A node has no bit.
    ZeroMap,
    /// A bit of the type map is no type.
    MapBitOut,
    /// A name has no byte.
    EmptyName,
    /// A name has a byte outside 0x21 to 0x7E.
    BadNameByte,
    /// A table has too many values.
    TableTooLarge,
    /// A value lies outside its range.
    ValueOut,
    /// An earlier record has the name.
    DuplicateName,
    /// An earlier record has the value.
    DuplicateValue,
    /// A flag is neither 0 nor 1.
    BadFlag,
    /// No common has the name.
    UnknownCommon,
    /// A default rule is none of those known.
    BadDefault,
    /// The kind of an expression item is none of those known.
    BadKind,
    /// The attribute of a constraint item is none of those known.
    BadAttr,
    /// The operator of a constraint item is none of those known.
    BadOp,
    /// An expression holds too many values.
    TooDeep,
    /// An expression does not end in one value.
    NotOneValue,
    /// A range has neither one level nor two.
    BadRange,
    /// An access vector specifies no one kind of rule.
    BadSpecified,
    /// The kind of an extended permission is none of those known.
    BadExtendedKind,
    /// An extended permission stands under a condition.
    ExtendedInCondition,
    /// An earlier rule has the key.
    DuplicateRule,
    /// The behaviour of a file system is none of those known.
    BadBehaviour,
    /// A name is empty, or has a byte 0.
    BadName,
    /// No primary record of the table declares the value.
    Dangling { table: TableKind, value: u32 },
}

impl Cause {
    ghost use Rattle.pol_fields.specs.FaultWords.{cause_word};

    /// The cause's word in a message: its name.
    pub fn word(&self) -> &'static str
        ensures { result.now ≡ cause_word self.now }
    {
        match self {
            Cause::Short => "Short",
            Cause::Trailing => "Trailing",
            Cause::BadMagic => "BadMagic",
            Cause::BadIdentity => "BadIdentity",
            Cause::UnsupportedVersion => "UnsupportedVersion",
            Cause::NotMls => "NotMls",
            Cause::BadUnknown => "BadUnknown",
            Cause::BadCounts => "BadCounts",
            Cause::BadMapUnit => "BadMapUnit",
            Cause::BadHighbit => "BadHighbit",
            Cause::BadCount => "BadCount",
            Cause::BadStart => "BadStart",
            Cause::ZeroMap => "ZeroMap",
            Cause::MapBitOut => "MapBitOut",
            Cause::EmptyName => "EmptyName",
            Cause::BadNameByte => "BadNameByte",
            Cause::TableTooLarge => "TableTooLarge",
            Cause::ValueOut => "ValueOut",
            Cause::DuplicateName => "DuplicateName",
            Cause::DuplicateValue => "DuplicateValue",
            Cause::BadFlag => "BadFlag",
            Cause::UnknownCommon => "UnknownCommon",
            Cause::BadDefault => "BadDefault",
            Cause::BadKind => "BadKind",
            Cause::BadAttr => "BadAttr",
            Cause::BadOp => "BadOp",
            Cause::TooDeep => "TooDeep",
            Cause::NotOneValue => "NotOneValue",
            Cause::BadRange => "BadRange",
            Cause::BadSpecified => "BadSpecified",
            Cause::BadExtendedKind => "BadExtendedKind",
            Cause::ExtendedInCondition => "ExtendedInCondition",
            Cause::DuplicateRule => "DuplicateRule",
            Cause::BadBehaviour => "BadBehaviour",
            Cause::BadName => "BadName",
            Cause::Dangling { .. } => "Dangling",
        }
    }
}

/// The first fault of a policy: the place of its field, which is the field's first byte, the field and the cause.
#[derive(Clone, Copy, Debug, PartialEq, Eq)]
pub struct Fault {
    pub place: u32,
    pub field: Field,
    pub cause: Cause,
}
