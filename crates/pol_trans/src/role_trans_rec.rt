//! A role transition, owned.

use pol_cursor::OwnedList;

/// A role transition, owned.
#[derive(Clone, Copy, Debug, PartialEq, Eq)]
pub struct RoleTransRec {
    /// The value of the role that changes.
    pub role: u32,
    /// The value of the type that is run.
    pub type_value: u32,
    /// The value of the role that it changes to.
    pub newrole: u32,
    /// The value of the class of the new object.
    pub class: u32,
}

/// Role transitions of a policy.
pub type RoleTransRecList = OwnedList<RoleTransRec>;
