//! Lists of sets.

use crate::set::Set;
use pol_cursor::OwnedList;

/// Sets of a record.
pub type SetList = OwnedList<Set>;
