//! A permission in the buffer, and how it is read.

ghost use Rattle.std.specs.Prelude.{◌≡◌, ◌≤◌, ◌+◌, ◌-◌, ◌^◌, IfOk, OnOk, length, take, drop};
ghost use Rattle.pol_cursor.specs.Outcome.{Answers};
ghost use Rattle.pol_cursor.specs.Parts.{num};
ghost use Rattle.pol_commons.specs.PermissionRecord.{claims_before, permission_value_at, permission_at, permission_in, permission_end, HasPermission};
ghost use Rattle.pol_commons.specs.Permissions.{has_permission};
ghost use Rattle.pol_symtab.specs.SymbolFields.{symbol_name_at};

use crate::causes::{name_cause, value_cause};
use crate::permission_list::PermissionList;
use crate::permission_rec::PermissionRec;
use pol_cursor::{ByteList, Cursor, refuse, string_in, u32_in};
use pol_fields::Fault;
use pol_fields::fields::{PERMISSION_LEN, PERMISSION_NAME, PERMISSION_VALUE};
use pol_symtab::read_symbol_length;
use std::alloc::{AllocError, Global};
use std::marker::Model;

/// A permission in the buffer.
#[derive(Drop)]
pub struct PermissionView<'a> {
    bytes: &'a [u8],
    place: u32,
}

impl<'a> Model for PermissionView<'a> {
    ghost use Rattle.pol_commons.specs.declared.permission_rec.PermissionRec.{PermissionRec};
    ghost use Rattle.pol_commons.specs.PermissionRecord.{permission_in, HasPermission};

    ghost Value = { PermissionRec };

    ghost view = { λ v. permission_in v.bytes.now v.place };

    ghost invariant = { λ v. HasPermission v.bytes.now v.place };
}

impl<'a> PermissionView<'a> {
    /// The permission at a place that has one.
    pub fn at(bytes: &'a [u8], place: u32) -> PermissionView<'a>
        requires { HasPermission bytes.now place }
        ensures { result ≡ permission_in bytes.now place }
    {
        PermissionView { bytes, place }
    }

    /// The name of the permission.
    pub fn name(&self) -> &'a [u8]
        ensures { result.now ≡ self.now.name }
    {
        let len = u32_in(self.bytes, self.place as usize);
        string_in(self.bytes, self.place as usize + 8, len as usize)
    }

    /// The value, which is 1 to 32.
    pub fn value(&self) -> u32
        ensures exact { result ≡ self.now.value }
        ensures least { 1 ≤ result }
        ensures most { result ≤ 32 }
    {
        u32_in(self.bytes, self.place as usize + 4)
    }

    /// The bit of the permission in an access vector: bit v - 1 stands for the value v.
    pub fn bit(&self) -> u32
        ensures { result ≡ 2 ^ (self.now.value - 1) }
    {
        1 << (self.value() - 1)
    }

    /// Whether a mask has the permission: its bit is set.
    pub fn is_in(&self, mask: u32) -> bool
        ensures { result ≡ has_permission mask self.now }
    {
        (mask >> (self.value() - 1)) & 1 == 1
    }

    /// A copy of the permission.
    pub fn rec(&self, alloc: Global) -> Result<PermissionRec, AllocError>
        ensures { IfOk result (λ permission. permission ≡ self.now) }
    {
        Ok(PermissionRec {
            name: ByteList::from_vec(Vec::from_slice(alloc, self.name())?),
            value: self.value(),
        })
    }
}

/// The place behind the permission at a place that has one.
pub fn permission_end(bytes: &[u8], place: u32) -> u32
    requires { HasPermission bytes.now place }
    ensures { result ≡ permission_end bytes.now place }
{
    place + 8 + u32_in(bytes, place as usize)
}

/// The permission at the cursor, which then stands behind it. Takes no memory.
///
/// It comes after the permissions listed, and its class inherits others. `EmptyName` where its name has no byte, `ValueOut`
/// where its value is not 1 to 32, `DuplicateValue` where one of those has the value, `BadNameByte` where a byte of its name
/// lies outside 0x21 to 0x7E, `DuplicateName` where one of those has the name.
#[tactic(auto, unfolding(crate::specs::PermissionRecord::permission_at))]
pub fn read_permission<'a>(
    c: &mut Cursor<'a>,
    listed: &PermissionList<'a>,
    inherited: &PermissionList<'a>,
) -> Result<PermissionView<'a>, Fault>
    ensures exact { Answers (λ permission. permission) result (permission_at listed.now inherited.now) c.old c.new }
    ensures stands { IfOk result (λ permission. HasPermission c.old.bytes c.old.place × (permission ≡ permission_in c.old.bytes c.old.place)) }
    ensures next { OnOk result (c.new.place ≡ permission_end c.old.bytes c.old.place) }
{
    let bytes = c.bytes();
    let first = c.place();
    let len = read_symbol_length(c, PERMISSION_LEN)?;
    read_value(c, listed, inherited)?;
    read_name(c, len, listed, inherited)?;
    Ok(PermissionView {
        bytes,
        place: first,
    })
}

// The value of a permission.
#[tactic(auto, unfolding(crate::specs::PermissionRecord::permission_value_at), using(pol_cursor::proofs::Facts::number_is))]
fn read_value(
    c: &mut Cursor<'_>,
    listed: &PermissionList<'_>,
    inherited: &PermissionList<'_>,
) -> Result<u32, Fault>
    ensures exact { Answers (λ value. value) result (permission_value_at (claims_before listed.now inherited.now)) c.old c.new }
    ensures same { IfOk result (λ value. (value ≡ num c.old.bytes c.old.place 4) × (1 ≤ value) × (value ≤ 32)) }
    ensures next { OnOk result ((c.new.place ≡ c.old.place + 4) × (c.new.place ≤ length c.old.bytes)) }
{
    let place = c.place();
    let value = c.u32(PERMISSION_VALUE)?;
    refuse(
        value_cause(listed, inherited, value),
        place,
        PERMISSION_VALUE,
    )?;
    Ok(value)
}

// The name of a permission, which has that length.
#[tactic(auto, unfolding(pol_symtab::specs::SymbolFields::symbol_name_at), using(pol_cursor::proofs::Facts::string_is))]
fn read_name<'a>(
    c: &mut Cursor<'a>,
    len: u32,
    listed: &PermissionList<'_>,
    inherited: &PermissionList<'_>,
) -> Result<&'a [u8], Fault>
    ensures exact { Answers (λ name. name.now) result (symbol_name_at PERMISSION_NAME (claims_before listed.now inherited.now) len) c.old c.new }
    ensures same { IfOk result (λ name. name.now ≡ take len (drop c.old.place c.old.bytes)) }
    ensures next { OnOk result ((c.new.place ≡ c.old.place + len) × (c.new.place ≤ length c.old.bytes)) }
{
    let place = c.place();
    let name = c.take(len, PERMISSION_NAME)?;
    refuse(name_cause(listed, inherited, name), place, PERMISSION_NAME)?;
    Ok(name)
}
