//! The permissions of a class or common, one behind the other.

ghost use Rattle.std.specs.Prelude.{◌≡◌, ◌<◌, [], IfOk, OnOk, Some, slice_get, length};
ghost use Rattle.std.specs.Iterator.{YieldsFirst, item_count};
ghost use Rattle.pol_cursor.specs.Outcome.{Answers};
ghost use Rattle.pol_symtab.specs.Claims.{has_name, has_value};
ghost use Rattle.pol_commons.specs.PermissionRecord.{claims_of};
ghost use Rattle.pol_commons.specs.Permissions.{permissions_at, permissions_in, permissions_end, HavePermissions, of_name, of_value, mask_of};

use crate::permission_rec::PermissionRecList;
use crate::permission_view::{PermissionView, permission_end, read_permission};
use pol_cursor::Cursor;
use pol_fields::Fault;
use std::alloc::{AllocError, Global};
use std::marker::Model;

/// The permissions of a class or a common, one behind the other in the buffer. Contracts see the list of those that are left.
#[derive(Drop)]
pub struct PermissionList<'a> {
    bytes: &'a [u8],
    place: u32,
    count: u32,
}

impl<'a> Model for PermissionList<'a> {
    ghost use Rattle.std.specs.Prelude.{List};
    ghost use Rattle.pol_commons.specs.declared.permission_rec.PermissionRec.{PermissionRec};
    ghost use Rattle.pol_commons.specs.Permissions.{permissions_in, HavePermissions};

    ghost Value = { List PermissionRec };

    ghost view = { λ l. permissions_in l.bytes.now l.place l.count };

    ghost invariant = { λ l. HavePermissions l.bytes.now l.place l.count };
}

impl<'a> PermissionList<'a> {
    /// No permission.
    #[tactic(auto, unfolding(pol_cursor::specs::NestedRecords::nested_in, pol_cursor::specs::NestedRecords::HasNested))]
    pub fn empty() -> PermissionList<'a>
        ensures { result ≡ [] }
    {
        PermissionList::at(b"", 0, 0)
    }

    /// So many permissions from a place on that has them.
    pub fn at(bytes: &'a [u8], place: u32, count: u32) -> PermissionList<'a>
        requires { HavePermissions bytes.now place count }
        ensures { result ≡ permissions_in bytes.now place count }
    {
        PermissionList {
            bytes,
            place,
            count,
        }
    }

    /// How many there are.
    #[tactic(auto, using(crate::proofs::NestedValues::length_values_in))]
    pub fn len(&self) -> u32
        ensures { result ≡ length self.now }
    {
        self.count
    }

    /// The permissions again, from the first that is left.
    pub fn iter(&self) -> PermissionList<'a>
        ensures { result ≡ self.now }
    {
        PermissionList::at(self.bytes, self.place, self.count)
    }

    /// The permission of that number, from 0 on. It goes through those before it.
    pub fn view(&self, i: u32) -> PermissionView<'a>
        requires { i < length self.now }
        ensures { slice_get self.now i ≡ Some result }
    {
        PermissionView::at(self.bytes, permissions_end(self.bytes, self.place, i))
    }

    /// Whether one has the name.
    pub fn has_name(&self, name: &[u8]) -> bool
        ensures { result ≡ has_name (claims_of self.now) name.now }
    {
        self.iter().any(|permission| name == permission.name())
    }

    /// Whether one has the value.
    pub fn has_value(&self, value: u32) -> bool
        ensures { result ≡ has_value (claims_of self.now) value }
    {
        self.iter().any(|permission| value == permission.value())
    }

    /// The one of the value.
    pub fn of_value(&self, value: u32) -> Option<PermissionView<'a>>
        ensures { result ≡ of_value value self.now }
    {
        self.iter().find(|permission| value == permission.value())
    }

    /// The one of the name.
    pub fn of_name(&self, name: &[u8]) -> Option<PermissionView<'a>>
        ensures { result ≡ of_name name.now self.now }
    {
        self.iter().find(|permission| name == permission.name())
    }

    /// A copy of the permissions.
    pub fn rec(&self, alloc: Global) -> Result<PermissionRecList, AllocError>
        ensures { IfOk result (λ permissions. permissions ≡ self.now) }
    {
        let mut permissions = Vec::new(alloc);
        for permission in self.iter() {
            permissions.push(permission.rec(alloc)?)?;
        }
        Ok(PermissionRecList::from_vec(permissions))
    }

    /// The values as bits of an access vector: bit v - 1 stands for the value v.
    pub fn mask(&self) -> u32
        ensures { result ≡ mask_of self.now }
    {
        self.iter()
            .fold(0, |mask, permission| mask | permission.bit())
    }
}

impl<'a> Iterator for PermissionList<'a> {
    type Item = PermissionView<'a>;

    ghost next_gives = { YieldsFirst (λ rest. rest) };

    ghost remaining = { item_count (λ rest. rest) };

    fn next(&mut self) -> Option<PermissionView<'a>> {
        if self.count == 0 {
            return None;
        }
        let permission = PermissionView::at(self.bytes, self.place);
        self.place = permission_end(self.bytes, self.place);
        self.count -= 1;
        Some(permission)
    }
}

/// The place behind so many permissions.
pub fn permissions_end(bytes: &[u8], place: u32, count: u32) -> u32
    requires { HavePermissions bytes.now place count }
    ensures { result ≡ permissions_end bytes.now place count }
{
    let mut end = place;
    for _ in 0..count {
        end = permission_end(bytes, end);
    }
    end
}

/// The n permissions at the cursor, which then stands behind them. Takes no memory.
///
/// The class of the list inherits others. The faults are those of `read_permission`, under the permissions before one in the
/// list and those that are inherited. As a value is 1 to 32 and no two of all these have the same, the thirty-third is refused,
/// whatever n is.
pub fn read_permissions<'a>(
    c: &mut Cursor<'a>,
    n: u32,
    inherited: &PermissionList<'a>,
) -> Result<PermissionList<'a>, Fault>
    ensures exact { Answers (λ permissions. permissions) result (permissions_at inherited.now n) c.old c.new }
    ensures stand { IfOk result (λ permissions. HavePermissions c.old.bytes c.old.place n × (permissions ≡ permissions_in c.old.bytes c.old.place n)) }
    ensures next { OnOk result (c.new.place ≡ permissions_end c.old.bytes c.old.place n) }
{
    let bytes = c.bytes();
    let place = c.place();
    for i in 0..n {
        let listed = PermissionList::at(bytes, place, i);
        read_permission(c, &listed, inherited)?;
    }
    Ok(PermissionList::at(bytes, place, n))
}
