//! A constraint, owned.

use pol_bitmap::Set;
use pol_cursor::OwnedList;

/// Constraints, owned.
pub type ConstraintRecList = OwnedList<ConstraintRec>;

/// The expression of a constraint, owned.
#[derive(Drop)]
pub struct ConstraintRec {
    /// The permissions that it is about: bit v - 1 stands for the permission of value v.
    pub permissions: u32,
    /// The items, each operator after its operands.
    pub items: OwnedList<ConstraintItem>,
}

/// An item of a constraint.
#[derive(Drop)]
pub struct ConstraintItem {
    /// What it is, `CEXPR_NOT` to `CEXPR_NAMES` of [`codes`](crate::codes).
    pub kind: u32,
    /// What is compared, by [`codes`](crate::codes). It has no meaning in an operator.
    pub attr: u32,
    /// How it is compared, `CEXPR_EQ` to `CEXPR_INCOMP` of [`codes`](crate::codes). It has no meaning in an operator.
    pub op: u32,
    /// The names, where the kind is `CEXPR_NAMES`: bit v - 1 stands for the user, role or type of value v.
    pub names: Option<Set>,
    /// How the names were written, where the kind is `CEXPR_NAMES` and the version is 29 or later.
    pub type_set: Option<TypeSet>,
}

/// Types and attributes as they were written. They are kept.
#[derive(Drop)]
pub struct TypeSet {
    pub types: Set,
    pub negated: Set,
    pub flags: u32,
}
