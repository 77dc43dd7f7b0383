//! The file-name transitions of a policy, one by one or in groups.

ghost use Rattle.std.specs.Prelude.{◌≡◌};
ghost use Rattle.pol_cursor.specs.Outcome.{Yields};
ghost use Rattle.pol_trans.specs.NameTransitions.{has_groups, name_transitions_at};

use crate::lists::{NameGroupList, NameTransList};
use pol_cursor::{Cursor, ReadError, read_counted};
use pol_fields::codes::POLICYDB_VERSION_COMP_FTRANS;
use pol_fields::fields::{NAMEGROUP_COUNT, NAMETRANS_COUNT};
use std::alloc::Global;

/// The file-name transitions of a policy.
#[derive(Drop)]
pub enum NameTrans<'a> {
    /// One by one, up to version 32.
    Entries(NameTransList<'a>),
    /// By name, target and class, from version 33 on.
    Groups(NameGroupList<'a>),
}

/// Whether the file-name transitions of a policy of that version are groups.
pub fn has_groups(version: u32) -> bool
    ensures { result ≡ has_groups version }
{
    version >= POLICYDB_VERSION_COMP_FTRANS
}

/// Reads the count and the file-name transitions of a policy of that version.
pub fn read_name_trans<'a>(
    alloc: Global,
    c: &mut Cursor<'a>,
    version: u32,
) -> Result<NameTrans<'a>, ReadError>
    ensures { Yields (λ trans. trans) result (name_transitions_at version) c.old c.new }
{
    if has_groups(version) {
        Ok(NameTrans::Groups(read_counted(alloc, c, NAMEGROUP_COUNT)?))
    } else {
        Ok(NameTrans::Entries(read_counted(alloc, c, NAMETRANS_COUNT)?))
    }
}
