//! A role allow, owned.

use pol_cursor::OwnedList;

/// A role allow, owned.
#[derive(Clone, Copy, Debug, PartialEq, Eq)]
pub struct RoleAllowRec {
    /// The value of the role that may change.
    pub role: u32,
    /// The value of the role that it may change to.
    pub newrole: u32,
}

/// Role allows of a policy.
pub type RoleAllowRecList = OwnedList<RoleAllowRec>;
