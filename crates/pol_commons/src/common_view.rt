//! A common in the buffer, and how it is read.

ghost use Rattle.std.specs.Prelude.{◌≡◌, ◌≤◌, IfOk, OnOk};
ghost use Rattle.pol_cursor.specs.Outcome.{Answers};
ghost use Rattle.pol_commons.specs.CommonRecord.{common_at, common_in, HasCommon};

use crate::causes::permission_count_cause;
use crate::common_rec::CommonRec;
use crate::kind::Common;
use crate::permission_list::{PermissionList, read_permissions};
use pol_cursor::{ByteList, Copied, Cursor, refuse, string_in, u32_in};
use pol_fields::Fault;
use pol_fields::fields::{COMMON_LEN, COMMON_NAME, COMMON_NEL, COMMON_NPRIM, COMMON_VALUE};
use pol_symtab::{Taken, new_value_cause, read_symbol_length, read_symbol_name};
use std::alloc::{AllocError, Global};
use std::marker::Model;

/// A common in the buffer.
#[derive(Drop)]
pub struct CommonView<'a> {
    bytes: &'a [u8],
    place: u32,
}

impl<'a> Model for CommonView<'a> {
    ghost use Rattle.pol_cursor.specs.References.{Placed};
    ghost use Rattle.pol_commons.specs.declared.common_rec.CommonRec.{CommonRec};
    ghost use Rattle.pol_commons.specs.CommonRecord.{common_in, HasCommon};

    ghost Value = { Placed CommonRec };

    ghost view = { λ v. record { place = v.place; value = common_in v.bytes.now v.place } };

    ghost invariant = { λ v. HasCommon v.bytes.now v.place };
}

impl<'a> CommonView<'a> {
    /// The common at a place that has one.
    pub fn at(bytes: &'a [u8], place: u32) -> CommonView<'a>
        requires { HasCommon bytes.now place }
        ensures { result ≡ record { place = place; value = common_in bytes.now place } }
    {
        CommonView { bytes, place }
    }

    /// The name of the common.
    pub fn name(&self) -> &'a [u8]
        ensures { result.now ≡ self.now.value.name }
    {
        let len = u32_in(self.bytes, self.place as usize);
        string_in(self.bytes, self.place as usize + 16, len as usize)
    }

    /// The value of the common, which is 1 to the `nprim` of its table.
    pub fn value(&self) -> u32
        ensures { result ≡ self.now.value.value }
    {
        u32_in(self.bytes, self.place as usize + 4)
    }

    /// How many permissions it declares, at most 32.
    pub fn nprim(&self) -> u32
        ensures { result ≡ self.now.value.nprim }
    {
        u32_in(self.bytes, self.place as usize + 8)
    }

    /// The permissions that it has.
    pub fn permissions(&self) -> PermissionList<'a>
        ensures { result ≡ self.now.value.permissions }
    {
        let place = self.place + 16 + u32_in(self.bytes, self.place as usize);
        let count = u32_in(self.bytes, self.place as usize + 12);
        PermissionList::at(self.bytes, place, count)
    }
}

impl<'a> Copied<'a> for Common {
    fn rec(view: &CommonView<'a>, alloc: Global) -> Result<CommonRec, AllocError> {
        Ok(CommonRec {
            name: ByteList::copy_of(alloc, view.name())?,
            value: view.value(),
            nprim: view.nprim(),
            permissions: view.permissions().rec(alloc)?,
        })
    }
}

/// The common at the cursor, which then stands behind it. Takes no memory.
///
/// `EmptyName` where its name has no byte, `ValueOut` where its value is not 1 to the `nprim` of its table, `DuplicateValue`
/// where it is taken, `TableTooLarge` where it declares more than 32 permissions, `BadNameByte` where a byte of its name lies
/// outside 0x21 to 0x7E, `DuplicateName` where the name is taken, and the faults of `read_permissions`.
#[tactic(auto, unfolding(crate::specs::CommonRecord::common_at), using(pol_cursor::proofs::Facts::number_is))]
pub fn read_common<'a>(
    c: &mut Cursor<'a>,
    taken: &Taken<'a>,
    nprim: u32,
) -> Result<CommonView<'a>, Fault>
    ensures exact { Answers (λ common. common.value) result (common_at taken.now nprim) c.old c.new }
    ensures stands { IfOk result (λ common. HasCommon c.old.bytes c.old.place × (common ≡ record { place = c.old.place; value = common_in c.old.bytes c.old.place })) }
{
    let bytes = c.bytes();
    let first = c.place();
    let len = read_symbol_length(c, COMMON_LEN)?;
    let place = c.place();
    let value = c.u32(COMMON_VALUE)?;
    refuse(new_value_cause(nprim, taken, value), place, COMMON_VALUE)?;
    let place = c.place();
    let own_nprim = c.u32(COMMON_NPRIM)?;
    refuse(permission_count_cause(own_nprim), place, COMMON_NPRIM)?;
    let count = c.u32(COMMON_NEL)?;
    read_symbol_name(c, COMMON_NAME, len, taken)?;
    read_permissions(c, count, &PermissionList::empty())?;
    Ok(CommonView {
        bytes,
        place: first,
    })
}
