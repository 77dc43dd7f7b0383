//! A context, owned.

use crate::range_rec::RangeRec;
use pol_cursor::OwnedList;

/// A security context, owned.
#[derive(Drop)]
pub struct ContextRec {
    /// The value of the user.
    pub user: u32,
    /// The value of the role.
    pub role: u32,
    /// The value of the type.
    pub type_value: u32,
    /// The range of levels.
    pub range: RangeRec,
}

/// Security contexts, owned.
pub type ContextRecList = OwnedList<ContextRec>;
