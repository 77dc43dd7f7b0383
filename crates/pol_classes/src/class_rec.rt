//! A class, owned.

use pol_commons::PermissionRec;
use pol_constraints::ConstraintRec;
use pol_cursor::{ByteList, OwnedList};

/// A class of objects, owned.
pub struct ClassRec {
    /// One byte or more, each from 0x21 to 0x7E.
    pub name: ByteList,
    /// The name of the common whose permissions it inherits. It is empty where there is none.
    pub common: ByteList,
    /// It is 1 to the `nprim` of its table.
    pub value: u32,
    /// How many permissions it declares, at most 32.
    pub nprim: u32,
    /// The class's own permissions, without those of the common.
    pub permissions: OwnedList<PermissionRec>,
    /// The constraints on its permissions.
    pub constraints: OwnedList<ConstraintRec>,
    /// The constraints on a change of context, which may compare a third context.
    pub validatetrans: OwnedList<ConstraintRec>,
    /// Whose user a new object has: 0 not said, 1 the source's, 2 the target's.
    pub default_user: u32,
    /// Whose role a new object has: 0 not said, 1 the source's, 2 the target's.
    pub default_role: u32,
    /// Whose range a new object has: 0 not said, 1 source low, 2 source high, 3 source low-high, 4 target low, 5 target high,
    /// 6 target low-high, 7 glblub.
    pub default_range: u32,
    /// Whose type a new object has: 0 not said, 1 the source's, 2 the target's.
    pub default_type: u32,
}

// Its parts go in one call, wherever it is dropped.
impl Drop for ClassRec {
    fn drop(self) {
        let ClassRec {
            name,
            common,
            value,
            nprim,
            permissions,
            constraints,
            validatetrans,
            default_user,
            default_role,
            default_range,
            default_type,
        } = self;
    }
}

pub type ClassRecList = OwnedList<ClassRec>;
