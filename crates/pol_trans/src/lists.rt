// The lists of a policy: a count, and so many records, in file order.
ghost use Rattle.pol_cursor.specs.Outcome.{Yields};
ghost use Rattle.pol_cursor.specs.Parts.{counted, records_at};
ghost use Rattle.pol_cursor.specs.References.{placed};
ghost use Rattle.pol_trans.specs.RoleTransRecord.{role_trans_at};
ghost use Rattle.pol_trans.specs.RoleAllowRecord.{role_allow_at};
ghost use Rattle.pol_trans.specs.RangeTransRecord.{range_trans_at};

use crate::name_group_rec::NameGroupRec;
use crate::name_trans_rec::NameTransRec;
use crate::range_trans_rec::RangeTransRec;
use crate::role_allow_rec::RoleAllowRec;
use crate::role_trans_rec::RoleTransRec;
use crate::transition::TransitionKind;
use pol_cursor::{Cursor, ReadError, Records, read_counted};
use pol_fields::fields::{RANGETRANS_COUNT, ROLEALLOW_COUNT, ROLETRANS_COUNT};
use std::alloc::Global;

/// The role transitions of a policy. Contracts see the list of them, each with its place.
pub type RoleTransList<'a> = Records<'a, TransitionKind<RoleTransRec>>;

/// The role allows of a policy. Contracts see the list of them, each with its place.
pub type RoleAllowList<'a> = Records<'a, TransitionKind<RoleAllowRec>>;

/// The range transitions of a policy. Contracts see the list of them, each with its place.
pub type RangeTransList<'a> = Records<'a, TransitionKind<RangeTransRec>>;

/// The file-name transitions of a policy, one by one. Contracts see the list of them, each with its place.
pub type NameTransList<'a> = Records<'a, TransitionKind<NameTransRec>>;

/// The file-name transitions of a policy, in groups. Contracts see the list of them, each with its place.
pub type NameGroupList<'a> = Records<'a, TransitionKind<NameGroupRec>>;

/// Reads the count and the role transitions, which are the same in each version.
pub fn read_role_trans<'a>(
    alloc: Global,
    c: &mut Cursor<'a>,
    _version: u32,
) -> Result<RoleTransList<'a>, ReadError>
    ensures { Yields (λ list. list) result (counted ROLETRANS_COUNT (records_at (placed role_trans_at))) c.old c.new }
{
    read_counted(alloc, c, ROLETRANS_COUNT)
}

/// Reads the count and the role allows, which are the same in each version.
pub fn read_role_allows<'a>(
    alloc: Global,
    c: &mut Cursor<'a>,
    _version: u32,
) -> Result<RoleAllowList<'a>, ReadError>
    ensures { Yields (λ list. list) result (counted ROLEALLOW_COUNT (records_at (placed role_allow_at))) c.old c.new }
{
    read_counted(alloc, c, ROLEALLOW_COUNT)
}

/// Reads the count and the range transitions, which are the same in each version.
pub fn read_range_trans<'a>(
    alloc: Global,
    c: &mut Cursor<'a>,
    _version: u32,
) -> Result<RangeTransList<'a>, ReadError>
    ensures { Yields (λ list. list) result (counted RANGETRANS_COUNT (records_at (placed range_trans_at))) c.old c.new }
{
    read_counted(alloc, c, RANGETRANS_COUNT)
}
